// An evening of rows in one call: each row of demands put into the sheet and solved, or solved and
// judged, in its own part of every result buffer (document 02, [9]).
#![tactic(auto)]

mod admitting;
mod single;
mod whole;

pub use admitting::Called;
pub use whole::solve_evening;
