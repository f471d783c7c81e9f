ghost use Rattle.cutters.specs.Cutting.{repeated, turns};
ghost use Rattle.cutters.specs.Lawfulness.{repeat_lawful};

use crate::cutter::Cutter;
use boxes::region::Region;
use jobs::job::Job;
use ranges::range::Range;
use ranges::row::Row;

/// The fewest turns of a repeat.
const FEWEST: u32 = 1;

/// The most turns of a repeat.
const MOST: u32 = 16;

/// One cutter again and again, 1 to 16 times; other counts are taken as the nearer of these. It ends
/// early where nothing is left, or nothing changed.
#[derive(Clone, Copy, PartialEq, Eq, Debug)]
pub struct Repeat<C> {
    pub inner: C,
    pub times: u32,
}

impl<R: Range, C: Cutter<R>> Cutter<R> for Repeat<C> {
    ghost leaves = { λ c. repeated (turns c.times) (C.Cutter.leaves c.inner) };

    ghost lawful = { λ c. repeat_lawful _ (turns c.times) (C.Cutter.lawful c.inner) };

    // a flag, since the box is lent: see the trait
    fn cut(&self, job: &Job, region: &mut Region, rows: &mut [Row]) -> bool {
        let start = *region;
        // this counts turns; nothing is indexed by it
        for _turn in 0..self.times.clamp(FEWEST, MOST) {
            let before = *region;
            if !self.inner.cut(job, region, rows) {
                *region = start;
                return false;
            }
            if before.inside(region) {
                return true;
            }
        }
        true
    }
}
