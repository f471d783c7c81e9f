ghost use Rattle.std.specs.Prelude.{◌≡◌};
ghost use Rattle.ranges.specs.Kind.{rowed};
ghost use Rattle.ranges.specs.Plains.{plain, plain_row, plain_kind, plain_keeper};
ghost use Rattle.ranges.specs.Lawfulness.{plain_lawful, plain_keeps};
ghost use Rattle.ranges.specs.Fitting.{plain_valid};
ghost use Rattle.ranges.specs.Spans.{span_ends};

use crate::narrowing::Narrowing;
use crate::plain::Plain;
use crate::range::Range;
use crate::row::Row;
use crate::spans::{Span, add_ends, min_ends, mul_ends, shr_ends, sqr_ends, sub_ends};
use boxes::side::Side;

/// The plain range with these ends, if they are in order and within the bound.
fn make(span: Span) -> Option<Plain>
    ensures { rowed plain_row result ≡ plain (span_ends span) }
{
    if !span.fits() {
        return None;
    }
    Some(Plain {
        low: span.low as i32,
        high: span.high as i32,
    })
}

// `low`, `high` and `within` read alike in every kind so far, a line each. A body in the trait would
// make it a law of every kind that these go by the ends of its row.
impl Range for Plain {
    ghost kind = { plain_kind };

    ghost row = { plain_row };

    ghost lawful = { plain_lawful };

    ghost valid = { plain_valid };

    fn side(side: Side) -> Plain {
        Plain {
            low: side.low,
            high: side.high,
        }
    }

    fn constant(c: i32) -> Option<Plain> {
        make(Span::point(c))
    }

    fn low(&self) -> i32 {
        self.low
    }

    fn high(&self) -> i32 {
        self.high
    }

    fn add(&self, other: &Plain) -> Option<Plain> {
        make(add_ends(self.to_row(), other.to_row()))
    }

    fn sub(&self, other: &Plain) -> Option<Plain> {
        make(sub_ends(self.to_row(), other.to_row()))
    }

    fn mul(&self, other: &Plain) -> Option<Plain> {
        make(mul_ends(self.to_row(), other.to_row()))
    }

    fn sqr(&self) -> Option<Plain> {
        make(sqr_ends(self.to_row()))
    }

    fn min(&self, other: &Plain) -> Option<Plain> {
        make(min_ends(self.to_row(), other.to_row()))
    }

    fn shr(&self, by: u32) -> Option<Plain> {
        make(shr_ends(self.to_row(), by))
    }

    fn within(&self, span: Span) -> bool {
        Span::from(self.to_row()).inside(span)
    }

    fn apart(&self, span: Span) -> bool {
        let both = Span::from(self.to_row()).meet(span);
        both.high < both.low
    }

    fn to_row(&self) -> Row {
        Row {
            low: self.low,
            high: self.high,
            step: 0,
        }
    }

    fn from_row(r: Row) -> Plain {
        make(r.into()).unwrap_or(Plain { low: 0, high: 0 })
    }
}

impl Narrowing for Plain {
    ghost keeper = { plain_keeper };

    ghost keeps = { plain_keeps };

    fn keep(&self, span: Span) -> Option<Plain> {
        make(Span::from(self.to_row()).meet(span))
    }
}
