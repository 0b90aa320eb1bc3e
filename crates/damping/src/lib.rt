// Document 01, "Damping" and the test of convergence, with the flow units that it asks for.
#![tactic(auto)]

mod steps;
mod units;

pub use steps::{Damping, converged, damped, relative_change};
pub use units::factor;
