ghost use Rattle.std.specs.Prelude.{◌≡◌, false};
ghost use Rattle.inverses.specs.Inverses.{around_zero, greatest_quotient, least_quotient};
ghost use Rattle.ranges.specs.Kind.{ends};

use ranges::row::Row;
use whole::{divide_down, divide_up, greatest, least};

/// Whether 0 lies between the ends. Any two numbers are a row's ends, so the lower one may stand as
/// high; for ends in order the test is low <= 0 and 0 <= high. Where it fails, neither end is 0.
pub(crate) fn has_zero(y: Row) -> bool
    ensures { result ≡ around_zero (ends y) }
{
    (y.low.min(y.high) <= 0) & (0 <= y.low.max(y.high))
}

/// The least quotient of an end of z by an end of y, each rounded up.
pub(crate) fn least_quotient(z: Row, y: Row) -> i64
    requires { around_zero (ends y) ≡ false }
    ensures { result ≡ least_quotient (ends z) (ends y) }
{
    least(
        divide_up(z.low, y.low),
        divide_up(z.low, y.high),
        divide_up(z.high, y.low),
        divide_up(z.high, y.high),
    )
}

/// The greatest quotient of an end of z by an end of y, each rounded down.
pub(crate) fn greatest_quotient(z: Row, y: Row) -> i64
    requires { around_zero (ends y) ≡ false }
    ensures { result ≡ greatest_quotient (ends z) (ends y) }
{
    greatest(
        divide_down(z.low, y.low),
        divide_down(z.low, y.high),
        divide_down(z.high, y.low),
        divide_down(z.high, y.high),
    )
}
