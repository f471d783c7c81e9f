//! The plain answer of each operation, by the operands' ends alone. Every kind of range starts from
//! it.
ghost use Rattle.std.specs.Prelude.{◌≡◌};
ghost use Rattle.std.specs.Int.{int_max, int_min};
ghost use Rattle.boxes.specs.Boxes.{covers};
ghost use Rattle.ranges.specs.Bounds.{fit, point};
ghost use Rattle.ranges.specs.Hulls.{ends_add, ends_sub, ends_mul, ends_sqr, ends_min, ends_shr, low_square};
ghost use Rattle.ranges.specs.Kind.{ends};
ghost use Rattle.ranges.specs.Spans.{span_ends};

use crate::row::Row;
use whole::{greatest, least, product, shift_down};

/// The bound of all values, on either side of 0.
pub const BOUND: i32 = 1 << 30;

/// Two ends, wide enough for the plain answer of any operation.
#[derive(Clone, Copy, PartialEq, Eq, Debug)]
pub struct Span {
    pub low: i64,
    pub high: i64,
}

impl Span {
    /// The ends of one number.
    pub fn point(c: i32) -> Span
        ensures { span_ends result ≡ point c }
    {
        Span {
            low: c as i64,
            high: c as i64,
        }
    }

    /// What two spans have in common: crossed ends where that is nothing.
    pub fn meet(self, other: Span) -> Span
        ensures low { result.low ≡ int_max self.low other.low }
        ensures high { result.high ≡ int_min self.high other.high }
    {
        Span {
            low: self.low.max(other.low),
            high: self.high.min(other.high),
        }
    }

    /// Whether the ends lie within those of the other.
    pub fn inside(self, other: Span) -> bool
        ensures { result ≡ covers (span_ends other) (span_ends self) }
    {
        // one line, as in a side, which is of another type and stands below this crate
        (other.low <= self.low) & (self.high <= other.high)
    }

    /// Whether the ends are in order and within the bound.
    pub fn fits(&self) -> bool
        ensures { result ≡ fit (span_ends self.now) }
    {
        let bound = BOUND as i64;
        (-bound <= self.low) & ((self.low <= self.high) & (self.high <= bound))
    }
}

/// The ends of a row.
impl From<Row> for Span {
    ghost from_gives = { λ row span. span_ends span ≡ ends row };

    fn from(row: Row) -> Span {
        Span {
            low: row.low as i64,
            high: row.high as i64,
        }
    }
}

/// From the least sum to the greatest.
pub fn add_ends(a: Row, b: Row) -> Span
    ensures { span_ends result ≡ ends_add (ends a) (ends b) }
{
    Span {
        low: a.low as i64 + b.low as i64,
        high: a.high as i64 + b.high as i64,
    }
}

/// From the least difference to the greatest.
pub fn sub_ends(a: Row, b: Row) -> Span
    ensures { span_ends result ≡ ends_sub (ends a) (ends b) }
{
    Span {
        low: a.low as i64 - b.high as i64,
        high: a.high as i64 - b.low as i64,
    }
}

/// From the least product of ends to the greatest.
pub fn mul_ends(a: Row, b: Row) -> Span
    ensures { span_ends result ≡ ends_mul (ends a) (ends b) }
{
    let ll = product(a.low, b.low);
    let lh = product(a.low, b.high);
    let hl = product(a.high, b.low);
    let hh = product(a.high, b.high);
    Span {
        low: least(ll, lh, hl, hh),
        high: greatest(ll, lh, hl, hh),
    }
}

/// The least square of the numbers from the low end to the high one: 0 where they have both signs.
fn least_square(a: Row) -> i64
    ensures { result ≡ low_square a.low a.high }
{
    if a.low >= 0 {
        product(a.low, a.low)
    } else if a.high <= 0 {
        product(a.high, a.high)
    } else {
        0
    }
}

/// From the least square to the greatest.
pub fn sqr_ends(a: Row) -> Span
    ensures { span_ends result ≡ ends_sqr (ends a) }
{
    Span {
        low: least_square(a),
        high: product(a.low, a.low).max(product(a.high, a.high)),
    }
}

/// From the lesser low end to the lesser high end.
pub fn min_ends(a: Row, b: Row) -> Span
    ensures { span_ends result ≡ ends_min (ends a) (ends b) }
{
    Span {
        low: a.low.min(b.low) as i64,
        high: a.high.min(b.high) as i64,
    }
}

/// Both ends divided by 2^by and rounded down; a by above 30 is taken as 30.
pub fn shr_ends(a: Row, by: u32) -> Span
    ensures { span_ends result ≡ ends_shr by (ends a) }
{
    Span {
        low: shift_down(a.low as i64, by),
        high: shift_down(a.high as i64, by),
    }
}
