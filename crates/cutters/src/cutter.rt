ghost use Rattle.std.specs.Prelude.{◌≡◌, is_some};
ghost use Rattle.std.specs.Option.{unwrap_or};
ghost use Rattle.boxes.specs.Views.{sides_of};
ghost use Rattle.jobs.specs.Reading.{content_of};
ghost use Rattle.cutters.specs.Cutting.{Lawful, Meaning, Safe, cut_to};

use boxes::region::Region;
use jobs::job::Job;
use ranges::range::Range;
use ranges::row::Row;

/// What shrinks a box over scratch rows of one kind of range. Its meaning is `leaves`: what job and
/// box alone decide that it leaves.
pub trait Cutter<R: Range> {
    ghost leaves: { Self → Meaning };

    /// Cuts the box, and tells whether anything is left of it. That is a flag beside the box, which is
    /// only lent: where nothing is left it stays as it was.
    fn cut(&self, job: &Job, region: &mut Region, rows: &mut [Row]) -> bool
        ensures told { result ≡ is_some (cut_to (leaves self.now) job.now region.old rows.old) }
        ensures left { sides_of region.new ≡ unwrap_or (cut_to (leaves self.now) job.now region.old rows.old) (sides_of region.old) }
        ensures safe { Safe (content_of job.now) (sides_of region.old) result (sides_of region.new) };

    ghost lawful: { (c : Self) → Lawful (leaves c) };
}
