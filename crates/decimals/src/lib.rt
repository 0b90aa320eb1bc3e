// The f64 nearest to a decimal, ties to even, from whole numbers alone.
#![tactic(auto)]

mod digits;
mod ratios;
mod wide;

pub use digits::decimal;
