// hydraulicsolver.rs `update_demand_flows`: what each node draws after the heads, and what moved.
#![tactic(auto)]

ghost use Rattle.std.specs.Prelude.{◌≡◌, ◌<◌, ◌≤◌, length};
ghost use Rattle.layout.specs.Places.{Laid};
ghost use Rattle.drawn.specs.Drawn.{draws, change_of, bent, node_drawn, nodes_drawn, drawn_of};

use drawing::{Bend, bend_of, gives_way, pressure_range};
use layout::Layout;
use nodes::{elevation, in_service, is_enabled};
use records::{Pressures, pressures_of};
use update::{Stats, note};

// The change of a drawn flow: the factor times what the bend lacks of the head above minimum.
fn change_of(b: Bend, head: f64, elevation: f64, minimum: f64, factor: f64) -> f64
    ensures { result ≡ change_of b head elevation minimum factor }
{
    factor * (b.offset - (head - elevation - minimum)) * b.conductance
}

// A node whose demand gives way.
fn bend_node(
    sheet: &[u8],
    l: Layout,
    p: Pressures,
    i: usize,
    heads: &[f64],
    factor: f64,
    asked: &[f64],
    drawn: &mut [f64],
    stats: Stats,
) -> Stats
    requires laid { Laid l sheet.now }
    requires i_lt_nodes { i < l.nodes }
    requires nodes_in_bounds { (l.nodes ≤ length heads.now) × ((l.nodes ≤ length asked.now) × (l.nodes ≤ length drawn.old)) }
    ensures { draws drawn.new result ≡ bent sheet.now l p heads.now factor asked.now i (draws drawn.old stats) }
{
    let b = bend_of(drawn[i], asked[i], pressure_range(p));
    let dq = change_of(b, heads[i], elevation(sheet, l, i), p.minimum, factor);
    let q = drawn[i] - dq;
    drawn[i] = q;
    note(dq, q, false, stats)
}

// One node: a demand that gives way bends, others are copied; a disabled node's drawn flow stays.
fn draw_node(
    sheet: &[u8],
    l: Layout,
    p: Pressures,
    i: usize,
    heads: &[f64],
    factor: f64,
    asked: &[f64],
    drawn: &mut [f64],
    stats: Stats,
) -> Stats
    requires laid { Laid l sheet.now }
    requires i_lt_nodes { i < l.nodes }
    requires nodes_in_bounds { (l.nodes ≤ length heads.now) × ((l.nodes ≤ length asked.now) × (l.nodes ≤ length drawn.old)) }
    ensures { draws drawn.new result ≡ node_drawn sheet.now l p heads.now factor asked.now i (draws drawn.old stats) }
{
    if !is_enabled(sheet, l, i) {
        return stats;
    }
    if gives_way(in_service(sheet, l, i), asked[i]) {
        return bend_node(sheet, l, p, i, heads, factor, asked, drawn, stats);
    }
    drawn[i] = asked[i];
    stats
}

// All nodes in order, under these pressures.
fn draw_nodes(
    sheet: &[u8],
    l: Layout,
    p: Pressures,
    heads: &[f64],
    factor: f64,
    asked: &[f64],
    drawn: &mut [f64],
    stats: Stats,
) -> Stats
    requires laid { Laid l sheet.now }
    requires nodes_in_bounds { (l.nodes ≤ length heads.now) × ((l.nodes ≤ length asked.now) × (l.nodes ≤ length drawn.old)) }
    ensures { draws drawn.new result ≡ nodes_drawn sheet.now l p heads.now factor asked.now l.nodes (draws drawn.old stats) }
{
    let mut moved = stats;
    for i in 0..l.nodes {
        moved = draw_node(sheet, l, p, i, heads, factor, asked, drawn, moved);
    }
    moved
}

// All nodes in order, where a PD stands.
pub fn update_drawn(
    sheet: &[u8],
    l: Layout,
    heads: &[f64],
    factor: f64,
    asked: &[f64],
    drawn: &mut [f64],
    stats: Stats,
) -> Stats
    requires laid { Laid l sheet.now }
    requires nodes_in_bounds { (l.nodes ≤ length heads.now) × ((l.nodes ≤ length asked.now) × (l.nodes ≤ length drawn.old)) }
    ensures { draws drawn.new result ≡ drawn_of sheet.now l heads.now factor asked.now (draws drawn.old stats) }
{
    if l.pressures {
        return draw_nodes(
            sheet,
            l,
            pressures_of(sheet),
            heads,
            factor,
            asked,
            drawn,
            stats,
        );
    }
    stats
}
