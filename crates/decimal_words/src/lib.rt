// Numbers as words: read without a float, and then the nearest f64.
#![tactic(auto)]

mod digits;
mod written;

pub use digits::{all_digits, value_from};
pub use written::{Written, spelled_number, worth};
