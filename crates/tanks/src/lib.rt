// hydraulicsolver.rs `update_tank_links`: the links at tanks, shut by the tank's level; a tank's demand is its net inflow.
#![tactic(auto)]

ghost use Rattle.std.specs.Prelude.{◌≡◌, ◌<◌, ◌≤◌, length};
ghost use Rattle.layout.specs.Places.{Laid};
ghost use Rattle.links_at.specs.LinksAt.{LinksAt};
ghost use Rattle.tanks.specs.Tanks.{tanks, full_at, empty_at, shut, links_to, links_from, tank_update, tank_updates, tank_links_of};

use codes::Status;
use columns::{add_to, take_from};
use layout::Layout;
use links::{link_end, link_start};
use nodes::{is_tank, node};

// At this head the tank is full, and does not spill.
fn is_full(sheet: &[u8], l: Layout, i: usize, head: f64) -> bool
    requires laid { Laid l sheet.now }
    requires i_lt_nodes { i < l.nodes }
    ensures { result ≡ full_at sheet.now l i head }
{
    let tank = node(sheet, l, i);
    (head >= tank.elevation + tank.highest) & !tank.overflow
}

fn is_empty(sheet: &[u8], l: Layout, i: usize, head: f64) -> bool
    requires laid { Laid l sheet.now }
    requires i_lt_nodes { i < l.nodes }
    ensures { result ≡ empty_at sheet.now l i head }
{
    let tank = node(sheet, l, i);
    head <= tank.elevation + tank.lowest
}

// Shuts a link whose flow is above zero where that is barred, or below zero where that is.
fn shut_link(above: bool, below: bool, q: f64, j: usize, statuses: &mut [u8])
    requires { j < length statuses.old }
    ensures { statuses.new ≡ shut above below q j statuses.old }
{
    if (above & (q > 0.0)) | (below & (q < 0.0)) {
        statuses[j] = u8::from(Status::TempClosed);
    }
}

// The links that end at tank i: each adds its flow.
fn links_to(
    sheet: &[u8],
    l: Layout,
    places: &[usize],
    listed: &[usize],
    i: usize,
    full: bool,
    empty: bool,
    flows: &[f64],
    demands: &mut [f64],
    statuses: &mut [u8],
)
    requires laid { Laid l sheet.now }
    requires links_at { LinksAt l sheet.now places.now listed.now }
    requires i_lt_nodes { (i < l.nodes) × ((i < length demands.old) × ((l.links ≤ length flows.now) × (l.links ≤ length statuses.old))) }
    ensures { tanks demands.new statuses.new ≡ links_to sheet.now l i flows.now full empty l.links (tanks demands.old statuses.old) }
{
    let last = places[i + 1];
    for p in places[i]..last {
        let j = listed[p];
        if link_end(sheet, l, j) == i {
            add_to(demands, i, flows[j]);
            shut_link(full, empty, flows[j], j, statuses);
        }
    }
}

// The links that start at tank i: each takes its flow.
fn links_from(
    sheet: &[u8],
    l: Layout,
    places: &[usize],
    listed: &[usize],
    i: usize,
    full: bool,
    empty: bool,
    flows: &[f64],
    demands: &mut [f64],
    statuses: &mut [u8],
)
    requires laid { Laid l sheet.now }
    requires links_at { LinksAt l sheet.now places.now listed.now }
    requires i_lt_nodes { (i < l.nodes) × ((i < length demands.old) × ((l.links ≤ length flows.now) × (l.links ≤ length statuses.old))) }
    ensures { tanks demands.new statuses.new ≡ links_from sheet.now l i flows.now full empty l.links (tanks demands.old statuses.old) }
{
    let last = places[i + 1];
    for p in places[i]..last {
        let j = listed[p];
        if link_start(sheet, l, j) == i {
            take_from(demands, i, flows[j]);
            shut_link(empty, full, flows[j], j, statuses);
        }
    }
}

// One tank, at its head.
fn update_tank(
    sheet: &[u8],
    l: Layout,
    places: &[usize],
    listed: &[usize],
    i: usize,
    head: f64,
    flows: &[f64],
    demands: &mut [f64],
    statuses: &mut [u8],
)
    requires laid { Laid l sheet.now }
    requires links_at { LinksAt l sheet.now places.now listed.now }
    requires i_lt_nodes { (i < l.nodes) × ((l.nodes ≤ length demands.old) × ((l.links ≤ length flows.now) × (l.links ≤ length statuses.old))) }
    ensures { tanks demands.new statuses.new ≡ tank_update sheet.now l head flows.now i (tanks demands.old statuses.old) }
{
    let full = is_full(sheet, l, i, head);
    let empty = is_empty(sheet, l, i, head);
    demands[i] = 0.0;
    links_to(
        sheet, l, places, listed, i, full, empty, flows, demands, statuses,
    );
    links_from(
        sheet, l, places, listed, i, full, empty, flows, demands, statuses,
    );
}

// All tanks in node order. A link that a tank shuts is no status change.
pub fn tank_links(
    sheet: &[u8],
    l: Layout,
    places: &[usize],
    listed: &[usize],
    heads: &[f64],
    flows: &[f64],
    demands: &mut [f64],
    statuses: &mut [u8],
)
    requires laid { Laid l sheet.now }
    requires links_at { LinksAt l sheet.now places.now listed.now }
    requires nodes_in_bounds { (l.nodes ≤ length heads.now) × ((l.nodes ≤ length demands.old) × ((l.links ≤ length flows.now) × (l.links ≤ length statuses.old))) }
    ensures { tanks demands.new statuses.new ≡ tank_links_of sheet.now l heads.now flows.now demands.old statuses.old }
{
    for i in 0..l.nodes {
        if is_tank(sheet, l, i) {
            update_tank(
                sheet, l, places, listed, i, heads[i], flows, demands, statuses,
            );
        }
    }
}
