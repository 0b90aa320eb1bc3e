// Demand that gives way to pressure, by value: junction.rs `demand_coefficients` with pressure
// exponent 0.5, so that its n is 2 and a power of n - 1 is its argument.
#![tactic(auto)]

ghost use Rattle.std.specs.Prelude.{◌≡◌};
ghost use Rattle.drawing.specs.Drawing.{gives_way, counting, range_of, within, bend_of};

use constants::{BIG_VALUE, PDA_MIN_DIFF, RQ_TOL};
use float::larger;
use records::Pressures;

// The inverse of the gradient of a junction's head over its flow, and the head at that flow.
#[derive(Clone, Copy)]
pub struct Bend {
    pub conductance: f64,
    pub offset: f64,
}

// The column that counts: drawn where a PD stands, else asked.
pub fn counts<'a>(pressures: bool, drawn: &'a [f64], asked: &'a [f64]) -> &'a [f64]
    ensures { result.now ≡ counting pressures drawn.now asked.now }
{
    if pressures { drawn } else { asked }
}

// Only a demand above 0 of a junction in service gives way to pressure.
pub fn gives_way(serving: bool, asked: f64) -> bool
    ensures { result ≡ gives_way serving asked }
{
    serving & (asked > 0.0)
}

// From minimum to required pressure, and never less than a tenth of a foot.
pub fn pressure_range(p: Pressures) -> f64
    ensures { result ≡ range_of p }
{
    larger(p.required - p.minimum, PDA_MIN_DIFF)
}

// Between none and all of the demand; linear where the gradient is very small.
fn bend_within(drawn: f64, asked: f64, range: f64, factor: f64) -> Bend
    ensures { result ≡ within drawn asked range factor }
{
    let hgrad = 2.0 * range * factor / asked;
    if hgrad < RQ_TOL {
        return Bend {
            conductance: 1.0 / RQ_TOL,
            offset: drawn * RQ_TOL,
        };
    }
    Bend {
        conductance: 1.0 / hgrad,
        offset: hgrad * drawn / 2.0,
    }
}

// The bend of a demand above 0: steep below none and above all of it.
pub fn bend_of(drawn: f64, asked: f64, range: f64) -> Bend
    ensures { result ≡ bend_of drawn asked range }
{
    let factor = drawn / asked;
    if factor <= 0.0 {
        return Bend {
            conductance: 1.0 / BIG_VALUE,
            offset: BIG_VALUE * drawn,
        };
    }
    if factor < 1.0 {
        return bend_within(drawn, asked, range, factor);
    }
    Bend {
        conductance: 1.0 / BIG_VALUE,
        offset: range + BIG_VALUE * (drawn - asked),
    }
}
