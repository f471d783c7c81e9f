ghost use Rattle.std.specs.Prelude.{◌≡◌};
ghost use Rattle.evaluation.specs.Laws.{Lawfully};
ghost use Rattle.evaluation.specs.Scratch.{fitting, hindrance, left_in};

use crate::unfit::Unfit;
use boxes::region::Region;
use jobs::job::Job;
use jobs::registers;
use ranges::range::Range;
use ranges::row::Row;

/// The rows of all registers of a job over a box inside its start box, written to the first rows of
/// scratch memory. Rows past these stay, and a refusal leaves all as they were.
pub fn evaluate<R: Range>(job: &Job, region: &Region, rows: &mut [Row]) -> Result<(), Unfit>
    ensures told { result ≡ fitting (hindrance job.now region.now rows.old) tt }
    ensures filled { rows.new ≡ left_in R.Range.kind job.now region.now rows.old }
    ensures laws { Lawfully R.Range.kind job.now region.now rows.old rows.new result }
{
    if rows.len() < job.instructions() {
        return Err(Unfit::Scratch);
    }
    if !region.inside(&job.fields.start) {
        return Err(Unfit::Elsewhere);
    }
    registers::evaluate::<R>(&job.fields, region, rows).unwrap();
    Ok(())
}
