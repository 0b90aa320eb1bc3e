// The sheet of an EPANET text, and the list of its names, put into lent buffers.
#![tactic(auto)]

mod names;
mod parts;

pub use names::{put_names, room_behind};
pub use parts::{put_sheet, sheet_length};
