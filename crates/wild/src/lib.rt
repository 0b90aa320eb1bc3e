// The test of refusal 7.
#![tactic(auto)]

ghost use Rattle.std.specs.Prelude.{◌≡◌, ◌≤◌, length};
ghost use Rattle.wild.specs.Wild.{first_wild, wild_drawn, wild_place};

use float::wild;
use layout::Layout;
use search::first_where;

// The first of the first entries that is NaN, infinite or at least 2^64 in magnitude.
fn first_wild(x: &[f64], count: usize) -> Option<usize>
    requires { count ≤ length x.now }
    ensures { result ≡ first_wild x.now count }
{
    first_where(count, |i| wild(x[i]))
}

// 256 and the first node, where a PD stands, that draws so.
fn wild_drawn(l: Layout, drawn: &[f64]) -> Option<usize>
    requires { (l.nodes ≤ 64) × (l.nodes ≤ length drawn.now) }
    ensures { result ≡ wild_drawn l drawn.now }
{
    if !l.pressures {
        return None;
    }
    match first_wild(drawn, l.nodes) {
        Some(i) => Some(256 + i),
        None => None,
    }
}

// The place of refusal 7: a node, else 64 and a link, else, where a PD stands, 256 and a node for what
// it draws.
pub fn wild_place(l: Layout, heads: &[f64], flows: &[f64], drawn: &[f64]) -> Option<usize>
    requires nodes_bound { (l.nodes ≤ 64) × (l.links ≤ 128) }
    requires nodes_in_bounds { (l.nodes ≤ length heads.now) × ((l.links ≤ length flows.now) × (l.nodes ≤ length drawn.now)) }
    ensures { result ≡ wild_place l heads.now flows.now drawn.now }
{
    match first_wild(heads, l.nodes) {
        Some(i) => Some(i),
        None => match first_wild(flows, l.links) {
            Some(i) => Some(64 + i),
            None => wild_drawn(l, drawn),
        },
    }
}
