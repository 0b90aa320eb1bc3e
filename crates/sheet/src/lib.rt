// The network sheet: refusals 1 to 4 of document 01.
#![tactic(auto)]

mod reading;
mod scan;

pub use reading::{read, read_within};
