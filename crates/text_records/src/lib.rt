// The records of a sheet by value, from the words of the lines of an EPANET text.
#![tactic(auto)]

mod figures;
mod of_links;
mod of_nodes;

pub use of_links::link_record;
pub use of_nodes::node_record;
