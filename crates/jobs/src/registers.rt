ghost use Rattle.std.specs.Prelude.{◌≡◌, ◌<◌, ◌≤◌, ◌++◌, length, take, drop, slice_index_or};
ghost use Rattle.boxes.specs.Views.{sides_of};
ghost use Rattle.ranges.specs.Kind.{rowed};
ghost use Rattle.jobs.specs.Meaning.{RowsHold};
ghost use Rattle.jobs.specs.Registers.{AllValid, Before, all_within, gives, no_row, program_of, registers};

use crate::out_of_bound::OutOfBound;
use boxes::region::Region;
use ranges::range::Range;
use ranges::row::Row;
use records::fields::Fields;
use records::instruction::Instruction;

// Rows stay a slice and a register a number, as an index asks of every slice; a struct that held the
// lent rows would owe its rule again at each row that is written. The kinds of instruction are
// closed, so a match with a line for each stands.

/// The range of an earlier register.
fn operand<R: Range>(rows: &[Row], register: u8) -> R
    requires { register < length rows.now }
    ensures { R.Range.row result ≡ R.Range.kind.fixed (slice_index_or rows.now register no_row) }
{
    R::from_row(rows[register as usize])
}

/// The range of register k over a box, from the first k rows.
fn evaluate_one<R: Range>(
    instruction: Instruction,
    k: usize,
    region: &Region,
    rows: &[Row],
) -> Option<R>
    requires room { k ≤ length rows.now }
    requires wired { Before (length (sides_of region.now)) k instruction }
    requires valid { AllValid R.Range.kind rows.now k }
    ensures { rowed R.Range.row result ≡ gives R.Range.kind (sides_of region.now) instruction (take k rows.now) }
{
    match instruction {
        Instruction::Const(c) => R::constant(c),
        Instruction::Knob(n) => Some(R::side(region.sides()[n as usize])),
        Instruction::Add(a, b) => operand::<R>(rows, a).add(&operand::<R>(rows, b)),
        Instruction::Sub(a, b) => operand::<R>(rows, a).sub(&operand::<R>(rows, b)),
        Instruction::Mul(a, b) => operand::<R>(rows, a).mul(&operand::<R>(rows, b)),
        Instruction::Sqr(a) => operand::<R>(rows, a).sqr(),
        Instruction::Min(a, b) => operand::<R>(rows, a).min(&operand::<R>(rows, b)),
        Instruction::Shr(a, b) => operand::<R>(rows, a).shr(b as u32),
    }
}

/// The rows of all registers of a job over a box, by any kind of range, written to the first rows,
/// up to the first register that is too large. Rows past these stay.
pub fn evaluate<R: Range>(
    fields: &Fields,
    region: &Region,
    rows: &mut [Row],
) -> Result<(), OutOfBound>
    requires knobs { length (sides_of region.now) ≡ length (sides_of fields.now.start) }
    requires room { length (program_of fields.now) ≤ length rows.old }
    ensures told { result ≡ all_within (length (registers R.Range.kind (program_of fields.now) (sides_of region.now))) (length (program_of fields.now)) }
    ensures few { length (registers R.Range.kind (program_of fields.now) (sides_of region.now)) ≤ length (program_of fields.now) }
    ensures filled { rows.new ≡ registers R.Range.kind (program_of fields.now) (sides_of region.now) ++ drop (length (registers R.Range.kind (program_of fields.now) (sides_of region.now))) rows.old }
    ensures holds { RowsHold R.Range.kind (program_of fields.now) (sides_of region.now) (length (registers R.Range.kind (program_of fields.now) (sides_of region.now))) rows.new }
{
    for (k, &instruction) in fields.program.as_slice().iter().enumerate() {
        let Some(range) = evaluate_one::<R>(instruction, k, region, rows) else {
            return Err(OutOfBound { register: k });
        };
        rows[k] = range.to_row();
    }
    Ok(())
}
