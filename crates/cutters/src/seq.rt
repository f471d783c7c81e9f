ghost use Rattle.cutters.specs.Cutting.{in_turn};
ghost use Rattle.cutters.specs.Lawfulness.{seq_lawful};

use crate::cutter::Cutter;
use boxes::region::Region;
use jobs::job::Job;
use ranges::range::Range;
use ranges::row::Row;

/// First one cutter, then the other on what the first left.
#[derive(Clone, Copy, PartialEq, Eq, Debug)]
pub struct Seq<A, B> {
    pub first: A,
    pub second: B,
}

impl<R: Range, A: Cutter<R>, B: Cutter<R>> Cutter<R> for Seq<A, B> {
    ghost leaves = { λ c. in_turn (A.Cutter.leaves c.first) (B.Cutter.leaves c.second) };

    ghost lawful = { λ c. seq_lawful _ _ (A.Cutter.lawful c.first) (B.Cutter.lawful c.second) };

    // a flag, since the box is lent: see the trait
    fn cut(&self, job: &Job, region: &mut Region, rows: &mut [Row]) -> bool {
        let before = *region;
        if !self.first.cut(job, region, rows) {
            return false;
        }
        if !self.second.cut(job, region, rows) {
            *region = before;
            return false;
        }
        true
    }
}
