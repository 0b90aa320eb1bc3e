// The figures of an EPANET text in feet and cubic feet per second: units.rs, and what link.rs and pipe.rs make of them. Each operation is the Rust's, in its order.
#![tactic(auto)]

ghost use Rattle.std.specs.Prelude.{◌≡◌};
ghost use Rattle.text_units.specs.Units.{units_of, feet_of, diameter_feet, pressure_feet, cubic_feet, resistance_of, first_flow};

use damping::factor;
use power::{PowerTable, PowerTable871, power, power_871};

const MperFT: f64 = 0.3048;

const PSIperFT: f64 = 0.4333;

// What a text's flow unit says of its figures: whether they are metric, and how many of the unit a cubic foot per second is.
#[derive(Clone, Copy)]
pub struct Units {
    pub metric: bool,
    pub factor: f64,
}

// The units of a flow unit's code: metric from LPS on.
pub fn units_of(unit: usize) -> Units
    ensures { result ≡ units_of unit }
{
    Units {
        metric: 5 <= unit,
        factor: factor(unit),
    }
}

// An elevation, a head, a level or a length in feet.
pub fn feet(u: Units, x: f64) -> f64
    ensures { result ≡ feet_of u x }
{
    if u.metric {
        return x / MperFT;
    }
    x
}

// A diameter in feet, from millimetres or inches.
pub fn diameter_feet(u: Units, diameter: f64) -> f64
    ensures { result ≡ diameter_feet u diameter }
{
    if u.metric {
        return diameter / 1000.0 / MperFT;
    }
    diameter / 12.0
}

// A pressure in feet of water, from metres of it or psi.
pub fn pressure_feet(u: Units, pressure: f64) -> f64
    ensures { result ≡ pressure_feet u pressure }
{
    if u.metric {
        return pressure / MperFT;
    }
    pressure / PSIperFT
}

// A flow in cubic feet per second.
pub fn cubic_feet(u: Units, flow: f64) -> f64
    ensures { result ≡ cubic_feet u flow }
{
    flow / u.factor
}

// The resistance of a pipe by Hazen-Williams, its length and diameter in feet.
pub fn resistance(
    length: f64,
    diameter: f64,
    roughness: f64,
    table: &PowerTable,
    table_871: &PowerTable871,
) -> f64
    ensures { result ≡ resistance_of length diameter roughness }
{
    let square = diameter * diameter;
    4.727
        * (1.0 / (roughness * power(roughness, table)))
        * (1.0 / (square * square * power_871(diameter, table_871)))
        * length
}

// The flow that a link starts with: its area, so that the water runs at one foot per second.
pub fn first_flow(diameter: f64) -> f64
    ensures { result ≡ first_flow diameter }
{
    0.25 * 3.141592653589793 * (diameter * diameter)
}
