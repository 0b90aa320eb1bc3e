// The two tables of x^0.852 as one, those of x^0.871 as another, and their entries.
#![tactic(auto)]

mod tables;
mod tables_871;

pub use tables::{PowerTable, entry_a, entry_b, power_table};
pub use tables_871::{PowerTable871, power_table_871};
