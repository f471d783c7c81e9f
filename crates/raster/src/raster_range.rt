ghost use Rattle.std.specs.Prelude.{◌≡◌};
ghost use Rattle.raster.specs.Rasters.{raster_row, raster_kind, raster_keeper, raster_kept};
ghost use Rattle.ranges.specs.Kind.{rowed};
ghost use Rattle.raster.specs.Lawfulness.{raster_lawful};
ghost use Rattle.raster.specs.Stepping.{raster_valid};
ghost use Rattle.raster.specs.Inward.{raster_keeps};

use crate::making::{make, make_inward, make_of};
use crate::power::Power;
use crate::powers::{lesser_power, product_power};
use crate::raster::Raster;
use boxes::side::Side;
use ranges::narrowing::Narrowing;
use ranges::range::Range;
use ranges::row::Row;
use ranges::spans::{Span, add_ends, min_ends, mul_ends, shr_ends, sqr_ends, sub_ends};
use whole::product;

/// The held numbers in the span, if there are any.
fn cut(r: &Raster, span: Span) -> Option<Raster>
    ensures { rowed raster_row result ≡ raster_kept (raster_row r.now) span.low span.high }
{
    make_inward(Span::from(r.to_row()).meet(span), r.low as i64, r.power)
}

// What reads as in the plain range is a line of this kind's own, for the reasons told there.
impl Range for Raster {
    ghost kind = { raster_kind };

    ghost row = { raster_row };

    ghost lawful = { raster_lawful };

    ghost valid = { raster_valid };

    fn side(side: Side) -> Raster {
        Raster {
            low: side.low,
            high: side.high,
            power: if side.high <= side.low {
                Power::LARGEST
            } else {
                Power::SMALLEST
            },
        }
    }

    fn constant(c: i32) -> Option<Raster> {
        make(Span::point(c), Power::LARGEST)
    }

    fn low(&self) -> i32 {
        self.low
    }

    fn high(&self) -> i32 {
        self.high
    }

    fn add(&self, other: &Raster) -> Option<Raster> {
        let span = add_ends(self.to_row(), other.to_row());
        make(span, self.power.lesser(other.power))
    }

    fn sub(&self, other: &Raster) -> Option<Raster> {
        let span = sub_ends(self.to_row(), other.to_row());
        make(span, self.power.lesser(other.power))
    }

    fn mul(&self, other: &Raster) -> Option<Raster> {
        let span = mul_ends(self.to_row(), other.to_row());
        make(span, product_power(self, other))
    }

    fn sqr(&self) -> Option<Raster> {
        let span = sqr_ends(self.to_row());
        make_inward(span, product(self.low, self.low), product_power(self, self))
    }

    fn min(&self, other: &Raster) -> Option<Raster> {
        let span = min_ends(self.to_row(), other.to_row());
        make(span, lesser_power(self, other))
    }

    fn shr(&self, by: u32) -> Option<Raster> {
        // as in `shr_ends`, a by above 30 is taken as 30, so that no shift asks anything of its caller
        let span = shr_ends(self.to_row(), by);
        make(span, self.power.lowered(by.min(30)))
    }

    fn within(&self, span: Span) -> bool {
        Span::from(self.to_row()).inside(span)
    }

    fn apart(&self, span: Span) -> bool {
        cut(self, span).is_none()
    }

    fn to_row(&self) -> Row {
        Row {
            low: self.low,
            high: self.high,
            step: self.power.log,
        }
    }

    fn from_row(r: Row) -> Raster {
        make_of(r).unwrap_or(Raster {
            low: 0,
            high: 0,
            power: Power::LARGEST,
        })
    }
}

impl Narrowing for Raster {
    ghost keeper = { raster_keeper };

    ghost keeps = { raster_keeps };

    fn keep(&self, span: Span) -> Option<Raster> {
        cut(self, span)
    }
}
