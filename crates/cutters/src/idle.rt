ghost use Rattle.cutters.specs.Cutting.{idle};
ghost use Rattle.cutters.specs.Lawfulness.{idle_lawful};

use crate::cutter::Cutter;
use boxes::region::Region;
use jobs::job::Job;
use ranges::range::Range;
use ranges::row::Row;

/// The cutter that leaves every box as it is.
#[derive(Clone, Copy, PartialEq, Eq, Debug)]
pub struct Idle;

impl<R: Range> Cutter<R> for Idle {
    ghost leaves = { λ _. idle };

    ghost lawful = { λ c. idle_lawful };

    // a flag, since the box is lent: see the trait
    fn cut(&self, job: &Job, region: &mut Region, rows: &mut [Row]) -> bool {
        true
    }
}
