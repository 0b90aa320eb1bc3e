// state.rs: the columns of a solve, what they start from, and the heads that a step puts in.
#![tactic(auto)]

ghost use Rattle.std.specs.Prelude.{◌≡◌, ◌<◌, ◌≤◌, length};
ghost use Rattle.layout.specs.Places.{Laid};
ghost use Rattle.numbering.specs.Numbering.{RowsRight, RowBelow};
ghost use Rattle.state.specs.State.{heads_from, demands_from, flows_from, codes_from, with_head, solved_heads};

use layout::Layout;
use links::{link, link_status};
use nodes::{NodeIndex, node};
use numbering::{Row, unknown_of};

// Heads and demands as the sheet gives them.
pub fn start_nodes(sheet: &[u8], l: Layout, heads: &mut [f64], demands: &mut [f64])
    requires laid { Laid l sheet.now }
    requires nodes_in_bounds { (l.nodes ≤ length heads.old) × (l.nodes ≤ length demands.old) }
    ensures heads { heads.new ≡ heads_from sheet.now l l.nodes heads.old }
    ensures demands { demands.new ≡ demands_from sheet.now l l.nodes demands.old }
{
    for i in 0..l.nodes {
        let n = node(sheet, l, i);
        heads[i] = n.head;
        demands[i] = n.demand;
    }
}

// Flows and status codes as the sheet gives them.
pub fn start_links(sheet: &[u8], l: Layout, flows: &mut [f64], statuses: &mut [u8])
    requires laid { Laid l sheet.now }
    requires links_in_bounds { (l.links ≤ length flows.old) × (l.links ≤ length statuses.old) }
    ensures flows { flows.new ≡ flows_from sheet.now l l.links flows.old }
    ensures statuses { statuses.new ≡ codes_from sheet.now l l.links statuses.old }
{
    for j in 0..l.links {
        let k = link(sheet, l, j);
        flows[j] = k.flow;
        statuses[j] = link_status(sheet, l, j);
    }
}

// The head of a node, where it is an unknown.
fn put_head(row: Row, x: &[f64], i: usize, heads: &mut [f64])
    requires i_in_bounds { (i < length heads.old) × (64 ≤ length x.now) }
    requires row_below { RowBelow 64 row }
    ensures { heads.new ≡ with_head row x.now i heads.old }
{
    let Some(u) = row else {
        return;
    };
    let k = u.0;
    heads[i] = x[k];
}

// The unknowns' heads, each put at its node.
pub fn put_heads(sheet: &[u8], l: Layout, unknowns: &[usize], x: &[f64], heads: &mut [f64])
    requires nodes_bound { (l.nodes ≤ 64) × ((l.nodes ≤ length unknowns.now) × ((64 ≤ length x.now) × (l.nodes ≤ length heads.old))) }
    requires rows_right { RowsRight l sheet.now unknowns.now }
    ensures { heads.new ≡ solved_heads sheet.now l x.now l.nodes heads.old }
{
    for i in 0..l.nodes {
        let row = unknown_of(unknowns, NodeIndex(i));
        put_head(row, x, i, heads);
    }
}
