// A link's coefficients by value.
#![tactic(auto)]

ghost use Rattle.std.specs.Prelude.{◌≡◌};
ghost use Rattle.coefficient.specs.Link.{held_at, simple_of};

use constants::BIG_VALUE;

// What is added at a node: to its diagonal and to its right-hand side.
#[derive(Clone, Copy)]
pub struct NodeAddition {
    pub diagonal: f64,
    pub rhs: f64,
}

// The Rust's g_inv and y, and what a PSV adds at its start and a PRV at its end.
#[derive(Clone, Copy)]
pub struct Coefficients {
    pub conductance: f64,
    pub offset: f64,
    pub upstream: Option<NodeAddition>,
    pub downstream: Option<NodeAddition>,
}

// BIG_VALUE on the diagonal, and a right-hand side.
pub fn held(rhs: f64) -> Option<NodeAddition>
    ensures { result ≡ held_at rhs }
{
    let held = NodeAddition {
        diagonal: BIG_VALUE,
        rhs,
    };
    Some(held)
}

// Coefficients without additions.
pub fn simple(g_inv: f64, y: f64) -> Coefficients
    ensures { result ≡ simple_of g_inv y }
{
    Coefficients {
        conductance: g_inv,
        offset: y,
        upstream: None,
        downstream: None,
    }
}
