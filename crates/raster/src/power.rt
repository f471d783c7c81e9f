ghost use Rattle.std.specs.Prelude.{◌≤◌};

/// The power of 2 of a step, from 0 to 31.
#[derive(Clone, Copy, PartialEq, Eq, Debug)]
pub struct Power {
    pub(crate) log: u32,
    ghost limit: { log ≤ 31 },
}

impl Power {
    ghost use Rattle.std.specs.Prelude.{◌≡◌, ◌↔◌, ◌-◌, ◌^◌, min, pos, negsuc, ◌≤ℤ◌, IsSome, IfSome};
    ghost use Rattle.whole.specs.Laws.{GreatestPower};
    ghost use Rattle.raster.specs.Rasters.{divided, floored, zeros};

    /// Steps of 1.
    pub(crate) const SMALLEST: Power = Power { log: 0 };

    /// The largest step, which a range of one number has.
    pub(crate) const LARGEST: Power = Power { log: 31 };

    /// This power, unless it is above 31.
    pub(crate) fn new(log: u32) -> Option<Power>
        ensures valid { IsSome result ↔ (log ≤ 31) }
        ensures value { IfSome result (λ power. power.log ≡ log) }
    {
        if log > Power::LARGEST.log {
            return None;
        }
        Some(Power { log })
    }

    /// This power, or 31 where it is above that.
    pub(crate) fn capped(log: u32) -> Power
        ensures { result.log ≡ min 31 log }
    {
        Power {
            log: Power::LARGEST.log.min(log),
        }
    }

    /// The lesser of two powers.
    pub(crate) fn lesser(self, other: Power) -> Power
        ensures { result.log ≡ min self.log other.log }
    {
        Power {
            log: self.log.min(other.log),
        }
    }

    /// The power less `by`, and 0 where that is below 0.
    pub(crate) fn lowered(self, by: u32) -> Power
        ensures { result.log ≡ self.log - by }
    {
        Power {
            log: self.log.saturating_sub(by),
        }
    }

    /// Whether the step divides n.
    pub(crate) fn divides(self, n: i64) -> bool
        ensures { result ≡ divided self.log n }
    {
        n.unsigned_abs() % (1u64 << self.log) == 0
    }

    /// The greatest multiple of the step that is at most n.
    pub(crate) fn floor(self, n: i64) -> i64
        requires { (negsuc (2 ^ 61) ≤ℤ n) × (n ≤ℤ pos (2 ^ 61)) }
        ensures value { result ≡ floored self.log n }
        ensures bound { (negsuc (2 ^ 62) ≤ℤ result) × (result ≤ℤ pos (2 ^ 61)) }
    {
        (n >> self.log) * (1i64 << self.log)
    }

    /// How often 2 divides n, up to this power: this power itself for 0.
    pub(crate) fn zeros(self, n: i64) -> Power
        ensures value { result.log ≡ zeros self.log n }
        ensures greatest { GreatestPower self.log n result.log }
    {
        Power {
            log: self.log.min(n.unsigned_abs().trailing_zeros()),
        }
    }
}
