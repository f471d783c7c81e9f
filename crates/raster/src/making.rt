ghost use Rattle.std.specs.Prelude.{◌≡◌, ◌^◌, pos, negsuc, ◌≤ℤ◌};
ghost use Rattle.ranges.specs.Kind.{ends, rowed};
ghost use Rattle.ranges.specs.Spans.{span_ends};
ghost use Rattle.raster.specs.Rasters.{raster, raster_inward, raster_row};

use crate::power::Power;
use crate::raster::Raster;
use ranges::row::Row;
use ranges::spans::Span;

/// The raster range with these ends and steps of 2^power, if there is one.
pub(crate) fn make(span: Span, power: Power) -> Option<Raster>
    ensures { rowed raster_row result ≡ raster (span_ends span) power.log }
{
    if !span.fits() {
        return None;
    }
    if !power.divides(span.high - span.low) {
        return None;
    }
    Some(Raster {
        low: span.low as i32,
        high: span.high as i32,
        power,
    })
}

/// The raster range of a row, if it is the row of one.
pub(crate) fn make_of(row: Row) -> Option<Raster>
    ensures { rowed raster_row result ≡ raster (ends row) row.step }
{
    make(row.into(), Power::new(row.step)?)
}

/// The numbers of the span that differ from base by multiples of 2^power. None where there is no
/// such number, and where the span is crossed or leaves the bound.
pub(crate) fn make_inward(span: Span, base: i64, power: Power) -> Option<Raster>
    requires { (negsuc (2 ^ 60) ≤ℤ base) × (base ≤ℤ pos (2 ^ 60)) }
    ensures { rowed raster_row result ≡ raster_inward base power.log (span_ends span) }
{
    if !span.fits() {
        return None;
    }
    let low = base - power.floor(base - span.low);
    let high = base + power.floor(span.high - base);
    make(Span { low, high }, power)
}
