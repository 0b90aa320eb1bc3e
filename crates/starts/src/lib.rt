// state.rs: the columns that a solve starts from, whole.
#![tactic(auto)]

ghost use Rattle.std.specs.Prelude.{◌≡◌, false, ◌≤◌, replicate};
ghost use Rattle.layout.specs.Places.{Laid};
ghost use Rattle.state.specs.State.{state};
ghost use Rattle.starts.specs.Start.{start_of};

use layout::Layout;

// Heads, demands, flows and statuses as the sheet gives them, and drawn flows that are the demands.
// No node is grounded, which the caller's own column says.
pub fn start_columns(
    sheet: &[u8],
    l: Layout,
    heads: &mut [f64; 64],
    demands: &mut [f64; 64],
    drawn: &mut [f64; 64],
    flows: &mut [f64; 128],
    statuses: &mut [u8; 128],
)
    requires laid { Laid l sheet.now }
    requires nodes_bound { (l.nodes ≤ 64) × (l.links ≤ 128) }
    ensures { state heads.new demands.new drawn.new flows.new statuses.new (replicate 64 false) ≡ start_of sheet.now l }
{
    *heads = [0.0f64; 64];
    *demands = [0.0f64; 64];
    *flows = [0.0f64; 128];
    *statuses = [0u8; 128];
    state::start_nodes(sheet, l, heads, demands);
    state::start_links(sheet, l, flows, statuses);
    let asked = *demands;
    *drawn = asked;
}
