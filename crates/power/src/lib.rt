// Document 01, item 2: x^0.852 by two tables, and x^0.871 by two others.
#![tactic(auto)]

mod recipe;

pub use recipe::{power, power_871};
pub use tables::{PowerTable, PowerTable871, power_table, power_table_871};
