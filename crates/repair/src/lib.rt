// Demand 3: when a factorization fails at a node, the lowest-numbered Active PRV or PSV touching it
// is freed; if none touches it, the node is grounded, once per solve; if it is grounded already the
// solve is refused naming it.
#![tactic(auto)]

ghost use Rattle.std.specs.Prelude.{◌≡◌, ◌<◌, ◌≤◌, ◌&&◌, eqb, length, get_or};
ghost use Rattle.layout.specs.Places.{Laid};
ghost use Rattle.links.specs.Links.{regulator};
ghost use Rattle.links_at.specs.LinksAt.{LinksAt};
ghost use Rattle.repair.specs.Repair.{regulator_at, repaired, repair_at};

use codes::Status;
use entries::Entry;
use layout::Layout;
use links::{LinkIndex, is_regulator};
use nodes::NodeIndex;

// Whether a link is an Active PRV or PSV.
fn regulates(sheet: &[u8], l: Layout, statuses: &[u8], j: usize) -> bool
    requires laid { Laid l sheet.now }
    requires j_lt_links { (j < l.links) × (j < length statuses.now) }
    ensures { result ≡ (regulator sheet.now l j && eqb (get_or statuses.now j 0) 2) }
{
    is_regulator(sheet, l, j) & (statuses[j] == u8::from(Status::Active))
}

// The lowest-numbered Active PRV or PSV that touches the node.
fn regulator_at(
    sheet: &[u8],
    l: Layout,
    places: &[usize],
    listed: &[usize],
    statuses: &[u8],
    node: NodeIndex,
) -> Option<usize>
    requires laid { Laid l sheet.now }
    requires links_at { LinksAt l sheet.now places.now listed.now }
    requires node_lt_nodes { (node.0 < l.nodes) × (l.links ≤ length statuses.now) }
    ensures { result ≡ regulator_at sheet.now l statuses.now node.0 }
{
    let i = node.0;
    let last = places[i + 1];
    for p in places[i]..last {
        let j = listed[p];
        if regulates(sheet, l, statuses, j) {
            return Some(j);
        }
    }
    None
}

// The repair, or SG.
pub fn repair(
    sheet: &[u8],
    l: Layout,
    places: &[usize],
    listed: &[usize],
    statuses: &mut [u8],
    grounded: &mut [bool],
    node: NodeIndex,
) -> Entry
    requires laid { Laid l sheet.now }
    requires links_at { LinksAt l sheet.now places.now listed.now }
    requires node_lt_nodes { (node.0 < l.nodes) × ((l.links ≤ length statuses.old) × (node.0 < length grounded.old)) }
    ensures { repaired result statuses.new grounded.new ≡ repair_at sheet.now l statuses.old grounded.old node.0 }
{
    match regulator_at(sheet, l, places, listed, statuses, node) {
        Some(j) => {
            statuses[j] = u8::from(Status::XPressure);
            Entry::Freed(LinkIndex(j))
        }
        None => {
            let i = node.0;
            if grounded[i] {
                Entry::Singular(node)
            } else {
                grounded[i] = true;
                Entry::Grounded(node)
            }
        }
    }
}
