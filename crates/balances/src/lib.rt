// Line 4 of the verdict: does what flows in at a junction come out again?
#![tactic(auto)]

ghost use Rattle.std.specs.Prelude.{◌≡◌, ◌<◌, ◌≤◌, length};
ghost use Rattle.layout.specs.Places.{Laid};
ghost use Rattle.balances.specs.Balances.{leaks, unbalanced_of};

use layout::Layout;
use nodes::in_service;
use search::first_where;
use tolerance::within;

// Whether node i is a junction in service whose flows do not add up.
fn leaks_at(sheet: &[u8], l: Layout, i: usize, excess: &[f64], flow: f64) -> bool
    requires laid { Laid l sheet.now }
    requires i_lt_nodes { (i < l.nodes) × (i < length excess.now) }
    ensures { result ≡ leaks sheet.now l excess.now flow i }
{
    let serves = in_service(sheet, l, i);
    let e = excess[i];
    let balanced = within(e, flow);
    serves & !balanced
}

// The lowest junction in service whose entry, what flows in less what flows out and the demand, is
// not within `flow` of 0.
pub fn unbalanced(sheet: &[u8], l: Layout, excess: &[f64], flow: f64) -> Option<usize>
    requires laid { Laid l sheet.now }
    requires nodes_in_bounds { l.nodes ≤ length excess.now }
    ensures { result ≡ unbalanced_of sheet.now l excess.now flow }
{
    first_where(l.nodes, |i| leaks_at(sheet, l, i, excess, flow))
}
