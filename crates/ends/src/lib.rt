// What the ends of a link may be.
#![tactic(auto)]

mod ends;

pub use ends::ends_good;
