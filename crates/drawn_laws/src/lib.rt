// Line 7 of the verdict: a drawn flow that is not what the node's pressure lets it draw.
#![tactic(auto)]

ghost use Rattle.std.specs.Prelude.{◌≡◌, ◌<◌, ◌≤◌, length};
ghost use Rattle.layout.specs.Places.{Laid};
ghost use Rattle.drawn_laws.specs.DrawnLaws.{fair_share, surplus_at, ill_at, first_ill, ill_drawn};

use drawing::{gives_way, pressure_range};
use float::clamp;
use layout::Layout;
use nodes::{elevation, in_service, node};
use records::{Pressures, pressures_of};
use roots::root;
use search::first_where;
use tolerance::within;

// What a demand draws at a head: none of it at minimum pressure or below, all of it a range above,
// and its part by the root between.
fn fair_share(demand: f64, head: f64, elevation: f64, minimum: f64, range: f64) -> f64
    ensures { result ≡ fair_share demand head elevation minimum range }
{
    demand * root(clamp((head - elevation - minimum) / range, 0.0, 1.0))
}

// What a node draws above its share.
fn surplus(sheet: &[u8], l: Layout, p: Pressures, i: usize, heads: &[f64], drawn: &[f64]) -> f64
    requires laid { Laid l sheet.now }
    requires i_lt_nodes { i < l.nodes }
    requires nodes_in_bounds { (l.nodes ≤ length heads.now) × (l.nodes ≤ length drawn.now) }
    ensures { result ≡ surplus_at sheet.now l p heads.now drawn.now i }
{
    let n = node(sheet, l, i);
    let range = pressure_range(p);
    drawn[i] - fair_share(n.demand, heads[i], n.elevation, p.minimum, range)
}

// Whether a node's demand gives way, and it does not draw its share.
fn is_ill(
    sheet: &[u8],
    l: Layout,
    p: Pressures,
    i: usize,
    heads: &[f64],
    drawn: &[f64],
    flow: f64,
) -> bool
    requires laid { Laid l sheet.now }
    requires i_lt_nodes { i < l.nodes }
    requires nodes_in_bounds { (l.nodes ≤ length heads.now) × (l.nodes ≤ length drawn.now) }
    ensures { result ≡ ill_at sheet.now l p heads.now drawn.now flow i }
{
    let n = node(sheet, l, i);
    let gives = gives_way(in_service(sheet, l, i), n.demand);
    let more = surplus(sheet, l, p, i, heads, drawn);
    gives & !within(more, flow)
}

// The lowest node that does so, under these pressures.
fn first_ill(
    sheet: &[u8],
    l: Layout,
    p: Pressures,
    heads: &[f64],
    drawn: &[f64],
    flow: f64,
) -> Option<usize>
    requires laid { Laid l sheet.now }
    requires nodes_in_bounds { (l.nodes ≤ length heads.now) × (l.nodes ≤ length drawn.now) }
    ensures { result ≡ first_ill sheet.now l p heads.now drawn.now flow }
{
    first_where(l.nodes, |i| is_ill(sheet, l, p, i, heads, drawn, flow))
}

// The lowest node that does so, where a PD stands.
pub fn ill_drawn(sheet: &[u8], l: Layout, heads: &[f64], drawn: &[f64], flow: f64) -> Option<usize>
    requires laid { Laid l sheet.now }
    requires nodes_in_bounds { (l.nodes ≤ length heads.now) × (l.nodes ≤ length drawn.now) }
    ensures { result ≡ ill_drawn sheet.now l heads.now drawn.now flow }
{
    if !l.pressures {
        return None;
    }
    first_ill(sheet, l, pressures_of(sheet), heads, drawn, flow)
}
