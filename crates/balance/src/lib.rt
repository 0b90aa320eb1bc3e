// hydraulicsolver.rs `flow_balance`, but for tanks (request [3]): the balance of a converged solve, and
// the demands after it.
#![tactic(auto)]

ghost use Rattle.std.specs.Prelude.{◌≡◌, ◌≤◌, length};
ghost use Rattle.layout.specs.Places.{Laid};
ghost use Rattle.links.specs.Links.{EndsIn};
ghost use Rattle.balance.specs.Balance.{demand_of, supplied_by, supply_of, balance_of, settled_of};

use columns::add_to;
use layout::Layout;
use links::{link_end, link_start};
use nodes::{in_service, is_fixed};

// Total demand, total supply, and the first less the second.
#[derive(Clone, Copy)]
pub struct Totals {
    pub demand: f64,
    pub supply: f64,
    pub error: f64,
}

// What the junctions in service ask. A tank's inflow is no demand: supply has it already.
fn total_demand(sheet: &[u8], l: Layout, demands: &[f64]) -> f64
    requires laid { Laid l sheet.now }
    requires nodes_in_bounds { l.nodes ≤ length demands.now }
    ensures { result ≡ demand_of sheet.now l demands.now l.nodes }
{
    let mut total = 0.0;
    for i in 0..l.nodes {
        if in_service(sheet, l, i) {
            total = total + demands[i];
        }
    }
    total
}

// The supply with one link more.
fn supplied(fixed_start: bool, fixed_end: bool, q: f64, supply: f64) -> f64
    ensures { result ≡ supplied_by fixed_start fixed_end q supply }
{
    let mut t = supply;
    if fixed_end {
        t = t - q;
    }
    if fixed_start {
        t = t + q;
    }
    t
}

fn total_supply(sheet: &[u8], l: Layout, flows: &[f64]) -> f64
    requires laid { Laid l sheet.now }
    requires ends_in { EndsIn l sheet.now }
    requires links_in_bounds { l.links ≤ length flows.now }
    ensures { result ≡ supply_of sheet.now l flows.now l.links }
{
    let mut supply = 0.0;
    for j in 0..l.links {
        let start = link_start(sheet, l, j);
        let end = link_end(sheet, l, j);
        let fixed_start = is_fixed(sheet, l, start);
        let fixed_end = is_fixed(sheet, l, end);
        supply = supplied(fixed_start, fixed_end, flows[j], supply);
    }
    supply
}

// The balance of a converged solve.
pub fn balanced(sheet: &[u8], l: Layout, demands: &[f64], flows: &[f64]) -> Totals
    requires laid { Laid l sheet.now }
    requires ends_in { EndsIn l sheet.now }
    requires nodes_in_bounds { (l.nodes ≤ length demands.now) × (l.links ≤ length flows.now) }
    ensures { result ≡ balance_of sheet.now l demands.now flows.now }
{
    let demand = total_demand(sheet, l, demands);
    let supply = total_supply(sheet, l, flows);
    Totals {
        demand: demand,
        supply: supply,
        error: demand - supply,
    }
}

// Each demand gains +0.0, which turns a -0.0: the Rust's emitter step.
pub fn settle(nodes: usize, demands: &mut [f64])
    requires { nodes ≤ length demands.old }
    ensures { demands.new ≡ settled_of nodes demands.old }
{
    for i in 0..nodes {
        add_to(demands, i, 0.0);
    }
}
