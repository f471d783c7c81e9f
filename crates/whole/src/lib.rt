//! Arithmetic on whole numbers that everything above rests on: products that fit, the least and
//! the greatest of four, quotients and shifts rounded down or up whatever the signs, and roots of
//! squares.
//!
//! Each contract gives the result twice: by an equation with a definition, for the proofs above,
//! and in words that do not say how to find it (the greatest whole number that is at most n / d,
//! and so on). The proofs hold the shelf of lemmas on whole numbers that the other crates cite:
//! orders of products and squares, multiples, floors and ceilings, roots.
#![tactic(auto)]

ghost use Rattle.std.specs.Prelude.{◌≡◌, ◌^◌, min, ℤ, pos, negsuc, ◌*ℤ◌, ◌≤ℤ◌, ◌≢◌};
ghost use Rattle.std.specs.Int.Signed.{shr_z};
ghost use Rattle.whole.specs.Corners.{least4, greatest4};
ghost use Rattle.whole.specs.Laws.{LeastOf, GreatestOf, RoundedDown, RoundedUp, GreatestRoot, LeastRoot};
ghost use Rattle.whole.specs.Quotients.{floor, ceiling};
ghost use Rattle.whole.specs.Roots.{root_down, root_up};

/// a times b, which always fits.
pub fn product(a: i32, b: i32) -> i64
    ensures { result ≡ a *ℤ b }
{
    a as i64 * b as i64
}

/// The least of four.
pub fn least(a: i64, b: i64, c: i64, d: i64) -> i64
    ensures value { result ≡ least4 a b c d }
    ensures least { LeastOf a b c d result }
{
    a.min(b).min(c.min(d))
}

/// The greatest of four.
pub fn greatest(a: i64, b: i64, c: i64, d: i64) -> i64
    ensures value { result ≡ greatest4 a b c d }
    ensures greatest { GreatestOf a b c d result }
{
    a.max(b).max(c.max(d))
}

/// n / 2^b, rounded down; a b above 30 is taken as 30, so that no shift asks anything of its caller.
pub fn shift_down(n: i64, b: u32) -> i64
    ensures value { result ≡ shr_z n (2 ^ min b 30) }
    ensures rounded { RoundedDown n (pos (2 ^ min b 30)) result }
{
    n >> b.min(30)
}

/// n / d, rounded down.
pub fn divide_down(n: i32, d: i32) -> i64
    requires { d ≢ pos 0 }
    ensures value { result ≡ floor n d }
    ensures rounded { RoundedDown n d result }
{
    let (n, d) = (n as i64, d as i64);
    if d > 0 {
        n.div_euclid(d)
    } else {
        (-n).div_euclid(-d)
    }
}

/// n / d, rounded up.
pub fn divide_up(n: i32, d: i32) -> i64
    requires { d ≢ pos 0 }
    ensures value { result ≡ ceiling n d }
    ensures rounded { RoundedUp n d result }
{
    let (top, by) = (n as i64, d as i64);
    if by < 0 {
        top.div_euclid(by)
    } else {
        (-top).div_euclid(-by)
    }
}

/// The greatest number whose square is at most n, and -1 for an n below 0, where there is none.
// No Option: callers take the -1 as an end, and ends from a root up to -1 cross, as they should.
pub fn root_down(n: i64) -> i64
    ensures value { result ≡ root_down n }
    ensures root { pos 0 ≤ℤ n → GreatestRoot n result }
    ensures bound { negsuc 0 ≤ℤ result }
{
    if n < 0 { -1 } else { n.isqrt() }
}

/// The least number from 0 whose square is at least n.
pub fn root_up(n: i64) -> i64
    ensures value { result ≡ root_up n }
    ensures root { LeastRoot n result }
{
    if n <= 0 { 0 } else { (n - 1).isqrt() + 1 }
}
