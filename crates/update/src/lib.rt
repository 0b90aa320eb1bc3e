// hydraulicsolver.rs `update_links`: the flows and statuses after the heads, and what moved; and which
// link's status changed first, with the cause (document 02, [2]).
#![tactic(auto)]

ghost use Rattle.std.specs.Prelude.{◌≡◌, ◌<◌, ◌≤◌, length};
ghost use Rattle.layout.specs.Places.{Laid};
ghost use Rattle.codes.specs.Codes.{status_of};
ghost use Rattle.links.specs.Links.{EndsIn, link_of};
ghost use Rattle.update.specs.Update.{basis, stepping, noted, counts, recoded, telling, flow_change, change_at, link_moved, link_update, link_updates, update_of};

use causes::{Flip, first_flip};
use float::abs;
use layout::Layout;
use links::link;
use nodes::{elevation, is_enabled};
use records::{Link, Status};
use status::{Change, updated};

// The Rust's sum_dq, sum_q, max_dq and status_changed.
#[derive(Clone, Copy)]
pub struct Stats {
    pub moved: f64,
    pub total: f64,
    pub largest: f64,
    pub changed: bool,
}

// What an update of the links came to.
#[derive(Clone, Copy)]
pub struct Updated {
    pub stats: Stats,
    pub flip: Flip,
}

// Takes a flow change, the flow after it and a status change that counts into the statistics.
pub fn note(dq: f64, q: f64, changes: bool, stats: Stats) -> Stats
    ensures { result ≡ noted dq q changes stats }
{
    let size = abs(dq);
    let mut largest = stats.largest;
    if size > largest {
        largest = size;
    }
    Stats {
        moved: stats.moved + size,
        total: stats.total + abs(q),
        largest: largest,
        changed: stats.changed | changes,
    }
}

// Whether a change of status counts: not where it leaves TempClosed or Xhead.
fn change_counts(old: Status, change: Change) -> bool
    ensures { result ≡ counts old change }
{
    match change {
        None => false,
        Some(_) => match old {
            Status::TempClosed | Status::Xhead => false,
            _ => true,
        },
    }
}

fn recode(statuses: &mut [u8], j: usize, change: Change)
    requires { j < length statuses.old }
    ensures { statuses.new ≡ recoded statuses.old j change }
{
    if let Some((new, _)) = change {
        statuses[j] = u8::from(new);
    }
}

// What is told with the change of link j, any change: of links that come in order, the first.
fn tell(flip: Flip, j: usize, change: Change) -> Flip
    ensures { result ≡ telling flip j change }
{
    match change {
        None => flip,
        Some((_, cause)) => first_flip(flip, j, cause),
    }
}

fn flow_change(k: Link, j: usize, heads: &[f64], g: &[f64], y: &[f64], factor: f64) -> f64
    requires { (k.start < length heads.now) × ((k.end < length heads.now) × ((j < length g.now) × (j < length y.now))) }
    ensures { result ≡ flow_change (basis heads.now g.now y.now factor) k j }
{
    let start = k.start;
    let end = k.end;
    let dh = heads[start] - heads[end];
    factor * (y[j] - g[j] * dh)
}

// The change of status of a link at its new flow.
fn change_at(sheet: &[u8], l: Layout, k: Link, code: u8, q: f64, heads: &[f64]) -> Change
    requires laid { Laid l sheet.now }
    requires nodes_in_bounds { (l.nodes ≤ length heads.now) × ((k.start < l.nodes) × (k.end < l.nodes)) }
    ensures { result ≡ change_at sheet.now l heads.now k code q }
{
    let start = k.start;
    let end = k.end;
    let up = elevation(sheet, l, start);
    let down = elevation(sheet, l, end);
    let kind = k.kind;
    updated(
        kind,
        Status::from(code),
        k.setting,
        q,
        heads[start],
        heads[end],
        up,
        down,
    )
}

// A link in service.
fn move_link(
    sheet: &[u8],
    l: Layout,
    k: Link,
    j: usize,
    heads: &[f64],
    g: &[f64],
    y: &[f64],
    factor: f64,
    flows: &mut [f64],
    statuses: &mut [u8],
    u: Updated,
) -> Updated
    requires laid { Laid l sheet.now }
    requires nodes_in_bounds { (l.nodes ≤ length heads.now) × ((k.start < l.nodes) × (k.end < l.nodes)) }
    requires j_in_bounds { (j < length g.now) × ((j < length y.now) × ((j < length flows.old) × (j < length statuses.old))) }
    ensures { stepping flows.new statuses.new result ≡ link_moved sheet.now l (basis heads.now g.now y.now factor) k j (stepping flows.old statuses.old u) }
{
    let dq = flow_change(k, j, heads, g, y, factor);
    let q = flows[j] - dq;
    let code = statuses[j];
    let change = change_at(sheet, l, k, code, q, heads);
    flows[j] = q;
    recode(statuses, j, change);
    let stats = u.stats;
    let flip = u.flip;
    let noted = note(dq, q, change_counts(Status::from(code), change), stats);
    Updated {
        stats: noted,
        flip: tell(flip, j, change),
    }
}

// One link; one with a disabled end gets flow 0.0 and nothing else.
fn update_link(
    sheet: &[u8],
    l: Layout,
    j: usize,
    heads: &[f64],
    g: &[f64],
    y: &[f64],
    factor: f64,
    flows: &mut [f64],
    statuses: &mut [u8],
    u: Updated,
) -> Updated
    requires laid { Laid l sheet.now }
    requires ends_in { EndsIn l sheet.now }
    requires nodes_in_bounds { (l.nodes ≤ length heads.now) × (j < l.links) }
    requires j_in_bounds { (j < length g.now) × ((j < length y.now) × ((j < length flows.old) × (j < length statuses.old))) }
    ensures { stepping flows.new statuses.new result ≡ link_update sheet.now l (basis heads.now g.now y.now factor) (link_of sheet.now l j) j (stepping flows.old statuses.old u) }
{
    let k = link(sheet, l, j);
    let start = k.start;
    let end = k.end;
    if is_enabled(sheet, l, start) & is_enabled(sheet, l, end) {
        return move_link(sheet, l, k, j, heads, g, y, factor, flows, statuses, u);
    }
    flows[j] = 0.0;
    u
}

// All links in order.
pub fn update_links(
    sheet: &[u8],
    l: Layout,
    heads: &[f64],
    g: &[f64],
    y: &[f64],
    factor: f64,
    flows: &mut [f64],
    statuses: &mut [u8],
) -> Updated
    requires laid { Laid l sheet.now }
    requires ends_in { EndsIn l sheet.now }
    requires nodes_in_bounds { (l.nodes ≤ length heads.now) × ((l.links ≤ length g.now) × ((l.links ≤ length y.now) × ((l.links ≤ length flows.old) × (l.links ≤ length statuses.old)))) }
    ensures { stepping flows.new statuses.new result ≡ update_of sheet.now l (basis heads.now g.now y.now factor) flows.old statuses.old }
{
    // carried round as numbers: a struct with flags would go through memory at each link
    let mut moved = 0.0;
    let mut total = 0.0;
    let mut largest = 0.0;
    let mut changed = false;
    let mut flip = None;
    for j in 0..l.links {
        let so_far = Updated {
            stats: Stats {
                moved: moved,
                total: total,
                largest: largest,
                changed: changed,
            },
            flip: flip,
        };
        let u = update_link(sheet, l, j, heads, g, y, factor, flows, statuses, so_far);
        let stats = u.stats;
        moved = stats.moved;
        total = stats.total;
        largest = stats.largest;
        changed = stats.changed;
        flip = u.flip;
    }
    Updated {
        stats: Stats {
            moved: moved,
            total: total,
            largest: largest,
            changed: changed,
        },
        flip: flip,
    }
}
