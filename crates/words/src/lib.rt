// The words of the listing, composed into a lent buffer: a byte, a number in decimal, the pattern of
// a float. Each function puts its text at a position and gives the position after it.
#![tactic(auto)]

mod digits;
mod words;

pub use words::{put_byte, put_float, put_number};
