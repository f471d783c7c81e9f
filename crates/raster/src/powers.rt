ghost use Rattle.std.specs.Prelude.{◌≡◌};
ghost use Rattle.raster.specs.Rasters.{power_mul, power_min, raster_row};

use crate::power::Power;
use crate::raster::Raster;

/// The power of the step of a product.
pub(crate) fn product_power(a: &Raster, b: &Raster) -> Power
    ensures { result.log ≡ power_mul (raster_row a.now) (raster_row b.now) }
{
    let by_b = a.power.log + b.power.zeros(b.low as i64).log;
    let by_a = b.power.log + a.power.zeros(a.low as i64).log;
    Power::capped((a.power.log + b.power.log).min(by_b.min(by_a)))
}

/// The power of the step of the lesser of two.
pub(crate) fn lesser_power(a: &Raster, b: &Raster) -> Power
    ensures { result.log ≡ power_min (raster_row a.now) (raster_row b.now) }
{
    a.power.lesser(b.power).zeros(a.low as i64 - b.low as i64)
}
