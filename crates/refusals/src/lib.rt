// Why a sheet is refused.
#![tactic(auto)]

mod refusals;

pub use refusals::{Refusal, refusal_number, refusal_place};
