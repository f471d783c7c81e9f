//! The inverse rules: from the ends of a result and of one operand to the ends between which the
//! other operand lies (the field's contractors of one operation), rounded inward to whole numbers.
//!
//! Each contract gives the answer twice: by an equation with a definition (specs/Inverses), and as a
//! promise that does not say how it is worked out (specs/InverseLaws): no operand is lost, whatever
//! numbers between the ends it was combined with. An answer with crossed ends says that there is no
//! such operand.
//!
//! Only the two ends of a row count, and any two numbers do: no rule asks that they be in order.
//! Which numbers of a range to keep, and when, is left to the crates above.
#![tactic(auto)]

ghost use Rattle.std.specs.Prelude.{◌≡◌, ◌^◌, pos, negsuc, ◌+ℤ◌, ◌-ℤ◌, ◌*ℤ◌, ◌≤ℤ◌};
ghost use Rattle.std.specs.Int.{int_min};
ghost use Rattle.inverses.specs.Inverses.{back_factor, back_lesser, back_minuend, back_shifted, back_square, back_subtrahend, back_sum, divisor, known_ends};
ghost use Rattle.inverses.specs.InverseLaws.{InverseBoth, InverseBothOf, InverseOne, InverseOneOf, InverseTwo, Known, turned};
ghost use Rattle.ranges.specs.Hulls.{shifted, square};
ghost use Rattle.ranges.specs.Kind.{ends};
ghost use Rattle.ranges.specs.Spans.{span_ends};

mod quotients;

use crate::quotients::{greatest_quotient, has_zero, least_quotient};
use ranges::row::Row;
use ranges::spans::{Span, add_ends, sub_ends};
use whole::{product, root_down, root_up};

/// The ends of x, where z = x + y or z = y + x.
pub fn of_sum(z: Row, y: Row) -> Span
    ensures value { span_ends result ≡ back_sum (ends z) (ends y) }
    ensures sound { InverseBoth ◌+ℤ◌ (ends z) (ends y) (span_ends result) }
{
    sub_ends(z, y)
}

/// The ends of x, where z = x - y.
pub fn of_minuend(z: Row, y: Row) -> Span
    ensures value { span_ends result ≡ back_minuend (ends z) (ends y) }
    ensures sound { InverseTwo ◌-ℤ◌ (ends z) (ends y) (span_ends result) }
{
    add_ends(z, y)
}

/// The ends of y, where z = x - y.
pub fn of_subtrahend(z: Row, x: Row) -> Span
    ensures value { span_ends result ≡ back_subtrahend (ends z) (ends x) }
    ensures sound { InverseTwo (turned ◌-ℤ◌) (ends z) (ends x) (span_ends result) }
{
    sub_ends(x, z)
}

/// The ends of x, where z = x times y or z = y times x. None where y may be 0, since nothing is known
/// of x then.
pub fn of_factor(z: Row, y: Row) -> Option<Span>
    ensures value { known_ends result ≡ back_factor (ends z) (ends y) }
    ensures sound { Known (InverseBoth ◌*ℤ◌ (ends z) (ends y)) (known_ends result) }
{
    if has_zero(y) {
        return None;
    }
    Some(Span {
        low: least_quotient(z, y),
        high: greatest_quotient(z, y),
    })
}

/// The ends of x, where z = x squared and x lies between its own ends.
pub fn of_square(z: Row, x: Row) -> Span
    ensures value { span_ends result ≡ back_square (ends z) (ends x) }
    ensures sound { InverseOneOf square (ends z) (ends x) (span_ends result) }
{
    // x is at least s and at most m away from 0; m is -1 where no square is as low as z
    let s = root_up(z.low as i64);
    let m = root_down(z.high as i64);
    if x.low as i64 > -s {
        Span { low: s, high: m }
    } else if (x.high as i64) < s {
        Span { low: -m, high: -s }
    } else {
        Span { low: -m, high: m }
    }
}

/// The ends of x, where z is the lesser of x and y, and x lies between its own ends.
pub fn of_lesser(z: Row, x: Row, y: Row) -> Span
    ensures value { span_ends result ≡ back_lesser (ends z) (ends x) (ends y) }
    ensures sound { InverseBothOf int_min (ends z) (ends x) (ends y) (span_ends result) }
{
    let high = if y.low > z.high { z.high } else { x.high };
    Span {
        low: z.low as i64,
        high: high as i64,
    }
}

/// 2^by; a by above 30 is taken as 30, so that no shift asks anything of its caller.
fn power(by: u32) -> i32
    ensures { result ≡ pos (divisor by) }
{
    1i32 << by.min(30)
}

/// The last of `count` numbers, where `first` is the first of them.
fn last(first: i64, count: i32) -> i64
    requires { (negsuc (2 ^ 62) ≤ℤ first) × (first ≤ℤ pos (2 ^ 62)) }
    ensures { result ≡ first +ℤ (count -ℤ pos 1) }
{
    first + (count as i64 - 1)
}

/// The ends of x, where z = x / 2^by rounded down; a by above 30 is taken as 30.
pub fn of_shifted(z: Row, by: u32) -> Span
    ensures value { span_ends result ≡ back_shifted by (ends z) }
    ensures sound { InverseOne (shifted by) (ends z) (span_ends result) }
{
    let count = power(by);
    Span {
        low: product(z.low, count),
        high: last(product(z.high, count), count),
    }
}
