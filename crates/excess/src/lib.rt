// What flows into each node beyond its demand; and the excess flows, which are that where a PRV or
// PSV is present.
#![tactic(auto)]

ghost use Rattle.std.specs.Prelude.{◌≡◌, ◌<◌, ◌≤◌, length};
ghost use Rattle.layout.specs.Places.{Laid};
ghost use Rattle.links.specs.Links.{EndsIn};
ghost use Rattle.excess.specs.Excess.{present, less_demands, shifted, with_flows, imbalance_of, excess_of};

use columns::{add_to, clear, take_from};
use layout::Layout;
use links::{is_regulator, link_end, link_start};

// Whether a link is a PRV or a PSV, at any status, in service or not.
fn any_regulator(sheet: &[u8], l: Layout) -> bool
    requires { Laid l sheet.now }
    ensures { result ≡ present sheet.now l l.links }
{
    let mut found = false;
    for i in 0..l.links {
        found = found | is_regulator(sheet, l, i);
    }
    found
}

// Each entry -0.0 less its demand.
fn start_at_demands(nodes: usize, demands: &[f64], excess: &mut [f64])
    requires { (nodes ≤ length demands.now) × (nodes ≤ length excess.old) }
    ensures { excess.new ≡ less_demands demands.now nodes excess.old }
{
    for i in 0..nodes {
        excess[i] = -0.0 - demands[i];
    }
}

// Takes a flow from the start and adds it at the end.
fn move_flow(excess: &mut [f64], start: usize, end: usize, q: f64)
    requires { (start < length excess.old) × (end < length excess.old) }
    ensures { excess.new ≡ shifted excess.old start end q }
{
    take_from(excess, start, q);
    add_to(excess, end, q);
}

// The flows of all links in order, those of links out of service too.
fn move_flows(sheet: &[u8], l: Layout, flows: &[f64], excess: &mut [f64])
    requires laid { Laid l sheet.now }
    requires ends_in { EndsIn l sheet.now }
    requires nodes_in_bounds { (l.nodes ≤ length excess.old) × (l.links ≤ length flows.now) }
    ensures { excess.new ≡ with_flows sheet.now l flows.now l.links excess.old }
{
    for i in 0..l.links {
        move_flow(
            excess,
            link_start(sheet, l, i),
            link_end(sheet, l, i),
            flows[i],
        );
    }
}

// What flows into each node beyond its demand and beyond what flows out.
pub fn imbalance(sheet: &[u8], l: Layout, demands: &[f64], flows: &[f64], excess: &mut [f64])
    requires laid { Laid l sheet.now }
    requires ends_in { EndsIn l sheet.now }
    requires nodes_in_bounds { (l.nodes ≤ length demands.now) × ((l.nodes ≤ length excess.old) × (l.links ≤ length flows.now)) }
    ensures { excess.new ≡ imbalance_of sheet.now l demands.now flows.now excess.old }
{
    start_at_demands(l.nodes, demands, excess);
    move_flows(sheet, l, flows, excess);
}

// The excess flow of each node, +0.0 where no PRV or PSV is present.
pub fn excess_flows(sheet: &[u8], l: Layout, demands: &[f64], flows: &[f64], excess: &mut [f64])
    requires laid { Laid l sheet.now }
    requires ends_in { EndsIn l sheet.now }
    requires nodes_in_bounds { (l.nodes ≤ length demands.now) × ((l.nodes ≤ length excess.old) × (l.links ≤ length flows.now)) }
    ensures { excess.new ≡ excess_of sheet.now l demands.now flows.now excess.old }
{
    if any_regulator(sheet, l) {
        imbalance(sheet, l, demands, flows, excess);
    } else {
        clear(l.nodes, excess);
    }
}
