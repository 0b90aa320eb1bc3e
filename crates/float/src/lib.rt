// What Rust's f64 gives and the port needs, for every f64: signs, order and the whole power. Bytes
// and bits are crate patterns', the square root is crate roots'.
#![tactic(auto)]

mod halving;
mod order;
mod sign;

pub use halving::whole_power;
pub use order::{clamp, larger, smaller, wild};
pub use sign::{abs, signum};
