// Where the records of a sheet stand.
#![tactic(auto)]

mod places;

pub use places::{LK_SIZE, Layout, ND_SIZE, OP_SIZE, PD_SIZE, heading, link_place, node_place};
