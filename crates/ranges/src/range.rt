ghost use Rattle.std.specs.Prelude.{◌≡◌, Option};
ghost use Rattle.ranges.specs.declared.row.Row.{Row};
ghost use Rattle.ranges.specs.Kind.{Kind, Lawful, Valid, rowed};

use crate::row::Row;
use crate::spans::Span;
use boxes::side::Side;

/// A kind of range. Its meaning is `kind`, over rows, and each range has a row.
pub trait Range: Copy {
    ghost kind: { Kind };

    ghost row: { Self → Row };

    /// All numbers of a side.
    fn side(side: Side) -> Self
        ensures { row result ≡ kind.side side.low side.high };

    /// The one number c, unless it is too large.
    fn constant(c: i32) -> Option<Self>
        ensures { rowed row result ≡ kind.constant c };

    /// The lowest held number.
    fn low(&self) -> i32
        ensures { result ≡ (row self.now).low };

    /// The highest held number.
    fn high(&self) -> i32
        ensures { result ≡ (row self.now).high };

    /// A range with every sum, unless it is too large.
    fn add(&self, other: &Self) -> Option<Self>
        ensures { rowed row result ≡ kind.add (row self.now) (row other.now) };

    /// A range with every difference, unless it is too large.
    fn sub(&self, other: &Self) -> Option<Self>
        ensures { rowed row result ≡ kind.sub (row self.now) (row other.now) };

    /// A range with every product, unless it is too large.
    fn mul(&self, other: &Self) -> Option<Self>
        ensures { rowed row result ≡ kind.mul (row self.now) (row other.now) };

    /// A range with every square, unless it is too large.
    fn sqr(&self) -> Option<Self>
        ensures { rowed row result ≡ kind.sqr (row self.now) };

    /// A range with the lesser of each two.
    fn min(&self, other: &Self) -> Option<Self>
        ensures { rowed row result ≡ kind.least (row self.now) (row other.now) };

    /// A range with every number divided by 2^by and rounded down; a by above 30 is taken as 30.
    fn shr(&self, by: u32) -> Option<Self>
        ensures { rowed row result ≡ kind.shift by (row self.now) };

    /// Whether every held number is in the span.
    fn within(&self, span: Span) -> bool
        ensures { result ≡ kind.within (row self.now) span.low span.high };

    /// Whether no held number is in the span.
    fn apart(&self, span: Span) -> bool
        ensures { result ≡ kind.apart (row self.now) span.low span.high };

    /// The row of the range, for scratch memory. This and the way back are methods, and no `From`,
    /// since their clauses speak of the kind's own row.
    fn to_row(&self) -> Row
        ensures { result ≡ row self.now };

    /// The range of a row, or some range where the row is none of this kind.
    fn from_row(r: Row) -> Self
        ensures { row result ≡ kind.fixed r };

    ghost lawful: { Lawful kind };

    ghost valid: { (x : Self) → Valid kind (row x) };
}
