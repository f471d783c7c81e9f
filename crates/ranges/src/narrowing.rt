ghost use Rattle.std.specs.Prelude.{◌≡◌, Option};
ghost use Rattle.ranges.specs.Kind.{Keeper, Keeping, Kept, rowed};

use crate::range::Range;
use crate::spans::Span;

/// A kind of range that can also keep part of a range.
pub trait Narrowing: Range {
    ghost keeper: { Keeper };

    /// Exactly the held numbers in the span; none where no held number is there.
    fn keep(&self, span: Span) -> Option<Self>
        ensures value { rowed Self.Range.row result ≡ keeper.kept (Self.Range.row self.now) span.low span.high }
        ensures exact { Kept Self.Range.kind (Self.Range.row self.now) span.low span.high (rowed Self.Range.row result) };

    ghost keeps: { Keeping Self.Range.kind keeper };
}
