// Document 01, item 6: the assembly of the matrix and the right side.
#![tactic(auto)]

mod building;

pub use building::assemble;
