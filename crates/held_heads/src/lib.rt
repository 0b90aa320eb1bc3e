// Line 6 of the verdict: an Active PRV or PSV that does not hold its node at the head it is set to.
#![tactic(auto)]

ghost use Rattle.std.specs.Prelude.{◌≡◌, ◌<◌, ◌≤◌, length};
ghost use Rattle.layout.specs.Places.{Laid};
ghost use Rattle.links.specs.Links.{EndsIn};
ghost use Rattle.held_heads.specs.Held.{held_by, holds_at, miss_of, misses_at, unheld_of};

use codes::Status;
use layout::Layout;
use links::{is_regulator, link, link_end, link_start};
use nodes::{elevation, is_enabled};
use records::LinkKind;
use search::first_where;
use tolerance::within;

// The node that a regulator of this kind holds: a PRV its end, a PSV its start.
fn held_by(kind: LinkKind, start: usize, end: usize) -> usize
    ensures { result ≡ held_by kind start end }
{
    match kind {
        LinkKind::Prv => end,
        _ => start,
    }
}

// Whether a link is an Active PRV or PSV in service.
fn holds(sheet: &[u8], l: Layout, j: usize, statuses: &[u8]) -> bool
    requires laid { Laid l sheet.now }
    requires ends_in { EndsIn l sheet.now }
    requires j_lt_links { (j < l.links) × (j < length statuses.now) }
    ensures { result ≡ holds_at sheet.now l statuses.now j }
{
    let start = link_start(sheet, l, j);
    let end = link_end(sheet, l, j);
    let serves = is_enabled(sheet, l, start) & is_enabled(sheet, l, end);
    is_regulator(sheet, l, j) & ((statuses[j] == u8::from(Status::Active)) & serves)
}

// How far the held node's head is above its set head, which is the setting above its elevation.
fn miss(sheet: &[u8], l: Layout, j: usize, heads: &[f64]) -> f64
    requires laid { Laid l sheet.now }
    requires ends_in { EndsIn l sheet.now }
    requires j_lt_links { (j < l.links) × (l.nodes ≤ length heads.now) }
    ensures { result ≡ miss_of sheet.now l heads.now j }
{
    let k = link(sheet, l, j);
    let kind = k.kind;
    let i = held_by(kind, k.start, k.end);
    heads[i] - (k.setting + elevation(sheet, l, i))
}

// Whether a link holds a node, and not at its set head.
fn misses(sheet: &[u8], l: Layout, j: usize, heads: &[f64], statuses: &[u8], head: f64) -> bool
    requires laid { Laid l sheet.now }
    requires ends_in { EndsIn l sheet.now }
    requires j_lt_links { (j < l.links) × ((j < length statuses.now) × (l.nodes ≤ length heads.now)) }
    ensures { result ≡ misses_at sheet.now l heads.now statuses.now head j }
{
    let held = holds(sheet, l, j, statuses);
    let off = miss(sheet, l, j, heads);
    held & !within(off, head)
}

// The lowest link that does so.
pub fn unheld(sheet: &[u8], l: Layout, heads: &[f64], statuses: &[u8], head: f64) -> Option<usize>
    requires laid { Laid l sheet.now }
    requires ends_in { EndsIn l sheet.now }
    requires links_in_bounds { (l.links ≤ length statuses.now) × (l.nodes ≤ length heads.now) }
    ensures { result ≡ unheld_of sheet.now l heads.now statuses.now head }
{
    first_where(l.links, |j| misses(sheet, l, j, heads, statuses, head))
}
