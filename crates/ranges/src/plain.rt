ghost use Rattle.std.specs.Prelude.{pos, negsuc, ◌≤ℤ◌};

/// All whole numbers from low to high, within the bound.
#[derive(Clone, Copy, PartialEq, Eq, Debug)]
pub struct Plain {
    pub(crate) low: i32,
    pub(crate) high: i32,
    ghost above: { negsuc 1073741823 ≤ℤ low },
    ghost order: { low ≤ℤ high },
    ghost below: { high ≤ℤ pos 1073741824 },
}
