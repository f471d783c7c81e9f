ghost use Rattle.std.specs.Prelude.{◌≡◌, ◌<◌, length};
ghost use Rattle.boxes.specs.Views.{sides_of};
ghost use Rattle.ranges.specs.Kind.{ends};
ghost use Rattle.jobs.specs.Reading.{content_of};
ghost use Rattle.jobs.specs.Registers.{Before};
ghost use Rattle.forward_backward.specs.Operands.{aimed};
ghost use Rattle.forward_backward.specs.Backward.{KnobOf, backward, box_of, narrowed_box, side_cut, turned};
ghost use Rattle.forward_backward.specs.Told.{Left, TurnedTo, boxed};

use crate::narrow::{narrow, row_at};
use crate::operands::narrow_operands;
use boxes::region::Region;
use boxes::side::Side;
use jobs::job::Job;
use ranges::narrowing::Narrowing;
use ranges::row::Row;
use ranges::spans::Span;
use records::instruction::Instruction;

// Job, box and rows are what a cutter is lent, and no struct holds the three. There are as many rows
// as instructions: a type for that would have to hold the job too. An instruction comes with its
// number, which is how many stand before it in the program.

/// The box with the side of an instruction's knob cut to the ends of its register; none where that
/// side would cross.
fn cut_side(instruction: Instruction, region: Region, z: Row) -> Option<Region>
    requires { KnobOf (length (sides_of region)) instruction }
    ensures { boxed result ≡ side_cut instruction (ends z) (sides_of region) }
{
    let Instruction::Knob(m) = instruction else {
        return Some(region);
    };
    let side = region.sides()[m as usize];
    let cut = Side::new(side.low.max(z.low), side.high.min(z.high))?;
    let mut sides = region.sides;
    sides.set(m as usize, cut);
    Some(Region { sides })
}

/// Takes instruction j backward: narrows its operands, and cuts the side of its knob.
fn turn<R: Narrowing>(
    instruction: Instruction,
    j: usize,
    region: Region,
    rows: &mut [Row],
) -> Option<Region>
    requires room { j < length rows.old }
    requires wired { Before (length (sides_of region)) j instruction }
    ensures { TurnedTo (turned R.Range.kind R.Narrowing.keeper instruction j (record { rows = rows.old; box = sides_of region })) result rows.new }
{
    let z = row_at::<R>(rows, j);
    narrow_operands::<R>(instruction, rows, j)?;
    cut_side(instruction, region, z)
}

/// Takes all instructions backward, from the last to the first.
fn all_backward<R: Narrowing>(job: &Job, region: Region, rows: &mut [Row]) -> Option<Region>
    requires knobs { length (sides_of region) ≡ length (content_of job.now).sides }
    requires room { length (content_of job.now).program ≡ length rows.old }
    ensures { boxed result ≡ box_of (backward R.Range.kind R.Narrowing.keeper (content_of job.now).program (length (content_of job.now).program) (record { rows = rows.old; box = sides_of region })) }
{
    let mut left = region;
    let mut program = job.fields.program.as_slice();
    while let Some((&instruction, earlier)) = program.split_last() {
        left = turn::<R>(instruction, earlier.len(), left, rows)?;
        program = earlier;
    }
    Some(left)
}

/// Keeps each target's register within the target.
fn aim<R: Narrowing>(job: &Job, rows: &mut [Row]) -> Option<()>
    requires { length (content_of job.now).program ≡ length rows.old }
    ensures { Left (aimed R.Range.kind R.Narrowing.keeper (content_of job.now).targets rows.old) result rows.new }
{
    for target in job.fields.targets.as_slice() {
        narrow::<R>(rows, target.register as usize, Span::from(*target))?;
    }
    Some(())
}

/// What is left of a box, by the rows of its registers.
pub(crate) fn narrow_box<R: Narrowing>(
    job: &Job,
    region: Region,
    rows: &mut [Row],
) -> Option<Region>
    requires knobs { length (sides_of region) ≡ length (content_of job.now).sides }
    requires room { length (content_of job.now).program ≡ length rows.old }
    ensures { boxed result ≡ narrowed_box R.Range.kind R.Narrowing.keeper (content_of job.now) (sides_of region) rows.old }
{
    aim::<R>(job, rows)?;
    all_backward::<R>(job, region, rows)
}
