// Line 8 of the verdict: a pressure too low to be sold.
#![tactic(auto)]

ghost use Rattle.std.specs.Prelude.{◌≡◌, ◌<◌, ◌≤◌, length};
ghost use Rattle.layout.specs.Places.{Laid};
ghost use Rattle.pressures_low.specs.Low.{too_low, low_at, low_of};

use layout::Layout;
use nodes::{in_service, node};
use search::first_where;

// Whether a pressure is not at least 0, or, where there is a demand, not at least the lowest. A NaN
// is not at least anything, and nothing is at least a NaN.
fn too_low(demand: f64, pressure: f64, lowest: f64) -> bool
    ensures { result ≡ too_low demand pressure lowest }
{
    !(pressure >= 0.0) | ((demand > 0.0) & !(pressure >= lowest))
}

// Whether a node is a junction in service whose pressure is too low.
fn is_low(sheet: &[u8], l: Layout, i: usize, heads: &[f64], lowest: f64) -> bool
    requires laid { Laid l sheet.now }
    requires i_lt_nodes { (i < l.nodes) × (i < length heads.now) }
    ensures { result ≡ low_at sheet.now l heads.now lowest i }
{
    let n = node(sheet, l, i);
    let serves = in_service(sheet, l, i);
    serves & too_low(n.demand, heads[i] - n.elevation, lowest)
}

// The lowest-numbered one.
pub fn low(sheet: &[u8], l: Layout, heads: &[f64], lowest: f64) -> Option<usize>
    requires laid { Laid l sheet.now }
    requires nodes_in_bounds { l.nodes ≤ length heads.now }
    ensures { result ≡ low_of sheet.now l heads.now lowest }
{
    first_where(l.nodes, |i| is_low(sheet, l, i, heads, lowest))
}
