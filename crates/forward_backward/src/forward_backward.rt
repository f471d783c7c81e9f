ghost use Rattle.forward_backward.specs.Backward.{forward_backward};
ghost use Rattle.forward_backward.specs.Lawfulness.{forward_backward_lawful};

use crate::backward::narrow_box;
use boxes::region::Region;
use cutters::cutter::Cutter;
use evaluation::evaluate::evaluate;
use jobs::job::Job;
use ranges::narrowing::Narrowing;
use ranges::row::Row;

/// Works out all registers of a job over a box, and narrows them backward from the targets to the
/// box.
#[derive(Clone, Copy, PartialEq, Eq, Debug)]
pub struct ForwardBackward;

impl<R: Narrowing> Cutter<R> for ForwardBackward {
    ghost leaves = { λ _. forward_backward R.Range.kind R.Narrowing.keeper };

    ghost lawful = { λ c. forward_backward_lawful R.Range.kind R.Range.lawful R.Narrowing.keeper R.Narrowing.keeps };

    // a flag, since the box is lent: see the trait
    fn cut(&self, job: &Job, region: &mut Region, rows: &mut [Row]) -> bool {
        let Ok(()) = evaluate::<R>(job, region, rows) else {
            return true;
        };
        match narrow_box::<R>(job, *region, &mut rows[..job.instructions()]) {
            Some(left) => {
                *region = left;
                true
            }
            None => false,
        }
    }
}
