// May this hour be sold? The verdict on a solve: a number and a place, the first line of the rule that
// holds.
#![tactic(auto)]

mod judging;
mod selling;

pub use judging::{Verdict, judge};
pub use selling::{Sold, sell, sell_read};
