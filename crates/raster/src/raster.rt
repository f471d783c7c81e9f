ghost use Rattle.std.specs.Prelude.{◌≡◌, ◌%◌, ◌^◌, pos, negsuc, ◌-ℤ◌, ◌≤ℤ◌, unsigned_abs};

use crate::power::Power;

/// The numbers low, low + 2^power, .. up to high, within the bound.
#[derive(Clone, Copy, PartialEq, Eq, Debug)]
pub struct Raster {
    pub(crate) low: i32,
    pub(crate) high: i32,
    pub(crate) power: Power,
    ghost above: { negsuc 1073741823 ≤ℤ low },
    ghost order: { low ≤ℤ high },
    ghost below: { high ≤ℤ pos 1073741824 },
    ghost whole: { unsigned_abs (high -ℤ low) % 2 ^ power.log ≡ 0 },
}
