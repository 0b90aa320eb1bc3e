// Document 01, item 4: link coefficients, one decision over the link's kind.
#![tactic(auto)]

mod rules;

pub use coefficient::{Coefficients, NodeAddition};
pub use rules::coefficients;
