// The records of the network sheet by value, and their codes.
#![tactic(auto)]

mod records;

pub use codes::{LinkKind, NodeKind, Status};
pub use records::{
    Link, Node, Options, Pressures, link_at, node_at, options_of, pair_at, pressures_of,
};
