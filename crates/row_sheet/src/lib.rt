// A row of demands put into a sheet. It knows where a node's demand stands, as records does, which reads it.
#![tactic(auto)]

ghost use Rattle.std.specs.Prelude.{◌≡◌, ◌+◌, ◌*◌, ◌^◌, ◌≤◌, ◌<◌, length};
ghost use Rattle.layout.specs.Places.{Laid, node_place};
ghost use Rattle.row_sheet.specs.RowSheet.{number_put, row_sheet, bad_demand};

use fields::base_bounds;
use float::abs;
use layout::{Layout, node_place};
use patterns::pattern;
use search::first_where;

// The eight bytes of a number from `at` on, the lowest byte first.
fn put_number(sheet: &mut [u8], at: usize, number: u64)
    requires { at + 8 ≤ length sheet.old }
    ensures { sheet.new ≡ number_put 8 sheet.old at number }
{
    let mut left = number;
    for k in 0..8 {
        sheet[at + k] = (left % 256) as u8;
        left = left / 256;
    }
}

// Row r of the table: each node's demand from its entry of the row; every other byte stays.
pub fn put_row(sheet: &mut [u8], l: Layout, table: &[f64], r: usize)
    requires laid { Laid l sheet.old }
    requires nodes_bound { (l.nodes ≤ 64) × (r ≤ 31) × (r * l.nodes + l.nodes ≤ length table.now) }
    ensures { sheet.new ≡ row_sheet sheet.old l table.now r }
{
    for i in 0..l.nodes {
        put_number(
            sheet,
            node_place(l, i) + 12,
            pattern(table[r * l.nodes + i]),
        );
    }
}

// The place of the first node whose demand in row r of the table is not within document 01's bounds.
pub fn bad_demand(l: Layout, table: &[f64], r: usize) -> Option<usize>
    requires nodes_bound { node_place l l.nodes < 2 ^ 64 }
    requires nodes_bound_2 { (l.nodes ≤ 64) × (r ≤ 31) × (r * l.nodes + l.nodes ≤ length table.now) }
    ensures { result ≡ bad_demand l table.now r }
{
    let largest = base_bounds().magnitude;
    let first = r * l.nodes;
    let i = first_where(l.nodes, |i| !(abs(table[first + i]) <= largest))?;
    Some(node_place(l, i))
}
