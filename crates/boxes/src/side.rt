ghost use Rattle.std.specs.Prelude.{pos, negsuc, ◌≤ℤ◌};

use std::fmt;

/// The lowest number of a knob.
pub const LOWEST: i32 = -16_384;

/// The highest number of a knob.
pub const HIGHEST: i32 = 16_383;

/// The numbers of one knob, from low to high.
#[derive(Clone, Copy, PartialEq, Eq, Debug)]
pub struct Side {
    pub low: i32,
    pub high: i32,
    ghost above: { negsuc 16383 ≤ℤ low },
    ghost order: { low ≤ℤ high },
    ghost below: { high ≤ℤ pos 16383 },
}

impl Side {
    ghost use Rattle.std.specs.Prelude.{◌≡◌, ◌≤◌, Decides};
    ghost use Rattle.boxes.specs.Boxes.{Among, covers, width};
    ghost use Rattle.boxes.specs.Views.{ends_of, shown, side};

    /// The side from low to high, if they are a knob's numbers and in order.
    pub fn new(low: i32, high: i32) -> Option<Side>
        ensures { shown result ≡ side (record { lo = low; hi = high }) }
    {
        if low < LOWEST || high < low || high > HIGHEST {
            return None;
        }
        Some(Side { low, high })
    }

    /// How many numbers the side has.
    pub fn count(&self) -> u32
        ensures value { result ≡ width (ends_of self.now) }
        ensures some { 1 ≤ result }
        ensures bound { result ≤ 32768 }
    {
        (self.high - self.low) as u32 + 1
    }

    /// Whether every number of the side is one of the other's.
    pub fn inside(&self, other: &Side) -> bool
        ensures value { result ≡ covers (ends_of other.now) (ends_of self.now) }
        ensures decides { Decides result (Among (ends_of self.now) (ends_of other.now)) }
    {
        // one line, as in the spans of `ranges`, which stands above this crate
        (other.low <= self.low) & (self.high <= other.high)
    }
}

impl fmt::Display for Side {
    ghost use Rattle.std.specs.Prelude.{Some};
    ghost use Rattle.boxes.specs.Views.{ends_of, ends_text};

    ghost output = { λ side. Some (ends_text (ends_of side)) };

    fn fmt<W: fmt::Write>(&self, f: &mut fmt::Formatter<W>) -> fmt::Result {
        let low = self.low;
        let high = self.high;
        write!(f, "{low}..{high}")
    }
}
