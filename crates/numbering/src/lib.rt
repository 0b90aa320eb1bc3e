// Junctions in service are numbered as unknowns in node order. A node's number and an unknown's
// number are separate kinds of index, so that node rows and matrix rows cannot be confused.
#![tactic(auto)]

ghost use Rattle.std.specs.Prelude.{◌≡◌, ◌<◌, ◌≤◌, length};
ghost use Rattle.layout.specs.Places.{Laid};
ghost use Rattle.numbering.specs.Numbering.{numbered, row_of, RowsRight, node_numbered};

use layout::Layout;
use linear::UnknownIndex;
use nodes::NodeIndex;

// What a node is in the matrix: an unknown, or none of its rows.
pub type Row = Option<UnknownIndex>;

// The mark for "no unknown" in the column of numbers.
const NO_UNKNOWN: usize = 0xffff_ffff;

// Fills a column with each node's number as an unknown, or the mark.
pub fn number_unknowns(sheet: &[u8], l: Layout, unknowns: &mut [usize])
    requires laid { Laid l sheet.now }
    requires nodes_in_bounds { l.nodes ≤ length unknowns.old }
    ensures { unknowns.new ≡ numbered sheet.now l l.nodes unknowns.old }
{
    let mut count: usize = 0;
    for i in 0..l.nodes {
        if nodes::in_service(sheet, l, i) {
            unknowns[i] = count;
            count += 1;
        } else {
            unknowns[i] = NO_UNKNOWN;
        }
    }
}

// The row of a node.
pub fn unknown_of(unknowns: &[usize], node: NodeIndex) -> Row
    requires { node.0 < length unknowns.now }
    ensures { result ≡ row_of unknowns.now node.0 }
{
    let i = node.0;
    let u = unknowns[i];
    if u == NO_UNKNOWN {
        None
    } else {
        Some(UnknownIndex(u))
    }
}

// The node of an unknown, found by a search: it is asked for once a failed factorization.
pub fn node_of(sheet: &[u8], l: Layout, unknowns: &[usize], unknown: UnknownIndex) -> NodeIndex
    requires nodes_in_bounds { l.nodes ≤ length unknowns.now }
    requires rows_right { RowsRight l sheet.now unknowns.now }
    ensures { result ≡ record { 0 = node_numbered sheet.now l l.nodes unknown.0 } }
{
    let mut node = 0;
    for i in 0..l.nodes {
        if unknown_of(unknowns, NodeIndex(i)) == Some(unknown) {
            node = i;
        }
    }
    NodeIndex(node)
}
