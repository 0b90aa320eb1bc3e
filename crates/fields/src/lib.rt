// The bounds of the fields of a sheet, record by record.
#![tactic(auto)]

mod fields;

pub use fields::{Bounds, base_bounds, link_good, node_good, options_good, pressures_good};
