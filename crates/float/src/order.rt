// Rust's max, min and clamp, with a NaN as they treat it, and the test of refusal 7.
ghost use Rattle.std.specs.Prelude.{◌≡◌};
ghost use Rattle.float.specs.Order.{larger_of, smaller_of, clamp_of, wild_of};

use crate::sign::abs;

// Rust's a.max(b): the other one where one is NaN.
pub fn larger(a: f64, b: f64) -> f64
    ensures { result ≡ larger_of a b }
{
    if a != a {
        return b;
    }
    if a < b { b } else { a }
}

// Rust's x.min(y): the other one where one is NaN.
pub fn smaller(x: f64, y: f64) -> f64
    ensures { result ≡ smaller_of x y }
{
    if x != x {
        return y;
    }
    if y < x { y } else { x }
}

// Rust's x.clamp(low, high): NaN stays NaN.
pub fn clamp(x: f64, low: f64, high: f64) -> f64
    ensures { result ≡ clamp_of x low high }
{
    if x < low {
        return low;
    }
    if high < x {
        return high;
    }
    x
}

// NaN, infinite, or at least 2^64 in magnitude.
pub fn wild(x: f64) -> bool
    ensures { result ≡ wild_of x }
{
    !(abs(x) < 18446744073709551616.0)
}
