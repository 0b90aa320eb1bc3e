// Document 01, item 7: forward and back substitution with a factor that crate linear made.
#![tactic(auto)]

mod substitution;

pub use substitution::substitute;
