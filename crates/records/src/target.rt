ghost use Rattle.std.specs.Prelude.{◌≡◌};
ghost use Rattle.ranges.specs.Spans.{span_ends};
ghost use Rattle.records.specs.Rules.{target_ends};

use ranges::spans::Span;

/// A register, and the values that it must have: those from low to high.
#[derive(Clone, Copy, PartialEq, Eq, Debug)]
pub struct Target {
    pub register: u8,
    pub low: i32,
    pub high: i32,
}

/// The ends of a target.
impl From<Target> for Span {
    ghost from_gives = { λ target span. span_ends span ≡ target_ends target };

    fn from(target: Target) -> Span {
        Span {
            low: target.low as i64,
            high: target.high as i64,
        }
    }
}
