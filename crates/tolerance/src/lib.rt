// What is near enough: the limits of a sale, and the test within one.
#![tactic(auto)]

ghost use Rattle.std.specs.Prelude.{◌≡◌};
ghost use Rattle.tolerance.specs.Within.{within_of};

use float::abs;

// The lowest pressure that is sold, and how far heads and flows may be off their laws.
#[derive(Clone, Copy)]
pub struct Limits {
    pub pressure: f64,
    pub head: f64,
    pub flow: f64,
}

// Whether x is at most so far from 0. NaN is within nothing, and nothing is within NaN or below 0.
pub fn within(x: f64, tolerance: f64) -> bool
    ensures { result ≡ within_of x tolerance }
{
    abs(x) <= tolerance
}
