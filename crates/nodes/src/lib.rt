// The nodes of a sheet: their fields by (sheet, layout, index). No other crate knows where in a
// node's record a field stands, but for those that do the reading.
#![tactic(auto)]

ghost use Rattle.std.specs.Prelude.{◌≡◌, ◌<◌};
ghost use Rattle.layout.specs.Places.{Laid};
ghost use Rattle.nodes.specs.Nodes.{node_of, enabled, fixed_node, in_service, tank_at, elevation_of, serving};

use layout::{Layout, node_place};
use patterns::from_bytes;
use records::{Node, node_at};

// A node, by its number.
#[derive(Clone, Copy)]
pub struct NodeIndex(pub usize);

// The whole record of node i.
pub fn node(sheet: &[u8], l: Layout, i: usize) -> Node
    requires laid { Laid l sheet.now }
    requires i_lt_nodes { i < l.nodes }
    ensures { result ≡ node_of sheet.now l i }
{
    node_at(sheet, node_place(l, i))
}

// Whether a node is in use.
pub fn is_enabled(sheet: &[u8], l: Layout, i: usize) -> bool
    requires laid { Laid l sheet.now }
    requires i_lt_nodes { i < l.nodes }
    ensures { result ≡ enabled sheet.now l i }
{
    sheet[node_place(l, i) + 3] == 0
}

// Whether a node is no junction, so that its head is given.
pub fn is_fixed(sheet: &[u8], l: Layout, i: usize) -> bool
    requires laid { Laid l sheet.now }
    requires i_lt_nodes { i < l.nodes }
    ensures { result ≡ fixed_node sheet.now l i }
{
    sheet[node_place(l, i) + 2] != 0
}

// Whether a node is a junction in service.
pub fn in_service(sheet: &[u8], l: Layout, i: usize) -> bool
    requires laid { Laid l sheet.now }
    requires i_lt_nodes { i < l.nodes }
    ensures { result ≡ in_service sheet.now l i }
{
    let at = node_place(l, i);
    (sheet[at + 2] == 0) & (sheet[at + 3] == 0)
}

pub fn is_tank(sheet: &[u8], l: Layout, i: usize) -> bool
    requires laid { Laid l sheet.now }
    requires i_lt_nodes { i < l.nodes }
    ensures { result ≡ tank_at sheet.now l i }
{
    sheet[node_place(l, i) + 2] == 2
}

pub fn elevation(sheet: &[u8], l: Layout, i: usize) -> f64
    requires laid { Laid l sheet.now }
    requires i_lt_nodes { i < l.nodes }
    ensures { result ≡ elevation_of sheet.now l i }
{
    from_bytes(sheet, node_place(l, i) + 4)
}

// How many nodes are junctions in service: the unknowns.
pub fn count_serving(sheet: &[u8], l: Layout) -> usize
    requires { Laid l sheet.now }
    ensures { result ≡ serving sheet.now l l.nodes }
{
    let mut count: usize = 0;
    for i in 0..l.nodes {
        if in_service(sheet, l, i) {
            count += 1;
        }
    }
    count
}
