ghost use Rattle.std.specs.Prelude.{◌≡◌, ◌≤◌, length, count_by};
ghost use Rattle.boxes.specs.Views.{sides_of};
ghost use Rattle.jobs.specs.Reading.{content_of};
ghost use Rattle.evaluation.specs.Judging.{Truly, Truth, concluded, judged, taken, target_apart, target_within};
ghost use Rattle.evaluation.specs.Scratch.{fitting, hindrance, left_in};

use crate::evaluate::evaluate;
use crate::says::{Counts, Says};
use crate::unfit::Unfit;
use boxes::region::Region;
use jobs::job::Job;
use ranges::range::Range;
use ranges::row::Row;
use ranges::spans::Span;

/// How many targets are within and how many apart, by the rows of the registers.
fn count<R: Range>(job: &Job, rows: &[Row]) -> Counts
    requires { length (content_of job.now).program ≤ length rows.now }
    ensures within { result.within ≡ count_by (target_within R.Range.kind (taken R.Range.kind rows.now)) (content_of job.now).targets }
    ensures apart { result.apart ≡ count_by (target_apart R.Range.kind (taken R.Range.kind rows.now)) (content_of job.now).targets }
{
    let (mut within, mut apart) = (0, 0);
    for target in job.fields.targets.as_slice() {
        let range = R::from_row(rows[target.register as usize]);
        let span = Span::from(*target);
        within += usize::from(range.within(span));
        apart += usize::from(range.apart(span));
    }
    Counts { within, apart }
}

/// What so many targets say, by how many are within and how many apart.
fn conclude(targets: usize, counts: Counts) -> Says
    ensures { result ≡ concluded targets counts.within counts.apart }
{
    if counts.within == targets {
        Says::Within
    } else if counts.apart > 0 {
        Says::Apart
    } else {
        Says::Open
    }
}

/// What the targets of a job say of a box inside its start box, by a kind of range. The rows of
/// scratch memory are those of the registers then; a refusal leaves them as they were.
pub fn judge<R: Range>(job: &Job, region: &Region, rows: &mut [Row]) -> Result<Says, Unfit>
    ensures told { result ≡ fitting (hindrance job.now region.now rows.old) (judged R.Range.kind (content_of job.now) (sides_of region.now)) }
    ensures filled { rows.new ≡ left_in R.Range.kind job.now region.now rows.old }
    ensures truth { Truly job.now region.now rows.old result }
{
    evaluate::<R>(job, region, rows)?;
    let counts = count::<R>(job, rows);
    Ok(conclude(job.targets(), counts))
}

/// What the targets of a job say of its whole start box, by a kind of range.
pub fn judge_start<R: Range>(job: &Job) -> Says
    ensures value { result ≡ judged R.Range.kind (content_of job.now) (content_of job.now).sides }
    ensures truth { Truth (content_of job.now) (content_of job.now).sides result }
{
    // fixed memory: a row for each instruction that a job may have
    let mut rows = [Row::default(); 64];
    judge::<R>(job, &job.fields.start, &mut rows).unwrap()
}
