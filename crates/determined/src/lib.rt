// Line 3 of the verdict: the lowest junction in service whose head nothing determines.
#![tactic(auto)]

ghost use Rattle.std.specs.Prelude.{◌≡◌, ◌<◌, ◌≤◌, length};
ghost use Rattle.layout.specs.Places.{Laid};
ghost use Rattle.links.specs.Links.{EndsIn};
ghost use Rattle.determined.specs.Determined.{link_serves, joins_at, held_at, with_mark, with_held, FoundBelow, undetermined_of};

use conducting::{conducts, holds};
use fills::fill_with;
use layout::Layout;
use links::{link, link_end, link_start};
use links_at::put_ends;
use nodes::{in_service, is_enabled, is_fixed};
use reach::{first_unjoined, spread};
use records::Status;

// Whether a link is in service: both its ends are.
fn link_serves(sheet: &[u8], l: Layout, j: usize) -> bool
    requires laid { Laid l sheet.now }
    requires ends_in { EndsIn l sheet.now }
    requires j_lt_links { j < l.links }
    ensures { result ≡ link_serves sheet.now l j }
{
    let start = link_start(sheet, l, j);
    let end = link_end(sheet, l, j);
    is_enabled(sheet, l, start) & is_enabled(sheet, l, end)
}

// Whether a link in service conducts, as the answer has it.
fn joins_at(sheet: &[u8], l: Layout, flows: &[f64], statuses: &[u8], j: usize) -> bool
    requires laid { Laid l sheet.now }
    requires ends_in { EndsIn l sheet.now }
    requires j_lt_links { (j < l.links) × ((j < length flows.now) × (j < length statuses.now)) }
    ensures { result ≡ joins_at sheet.now l flows.now statuses.now j }
{
    let k = link(sheet, l, j);
    link_serves(sheet, l, j) & conducts(k, Status::from(statuses[j]), flows[j])
}

// The node that a link in service holds, as the answer has it.
fn held_at(sheet: &[u8], l: Layout, statuses: &[u8], j: usize) -> Option<usize>
    requires laid { Laid l sheet.now }
    requires ends_in { EndsIn l sheet.now }
    requires j_lt_links { (j < l.links) × (j < length statuses.now) }
    ensures { result ≡ held_at sheet.now l statuses.now j }
{
    if !link_serves(sheet, l, j) {
        return None;
    }
    let k = link(sheet, l, j);
    holds(k, Status::from(statuses[j]))
}

// Marks a node that was found.
fn mark_found(found: Option<usize>, held: &mut [bool])
    requires { FoundBelow (length held.old) found }
    ensures { held.new ≡ with_mark found held.old }
{
    let Some(i) = found else {
        return;
    };
    held[i] = true;
}

// Marks the nodes that regulators hold, which are held as reservoirs and tanks are.
fn mark_held(sheet: &[u8], l: Layout, statuses: &[u8], held: &mut [bool])
    requires laid { Laid l sheet.now }
    requires ends_in { EndsIn l sheet.now }
    requires links_in_bounds { (l.links ≤ length statuses.now) × (l.nodes ≤ length held.old) }
    ensures { held.new ≡ with_held sheet.now l statuses.now l.links held.old }
{
    for j in 0..l.links {
        mark_found(held_at(sheet, l, statuses, j), held);
    }
}

// The lowest junction in service that no way of conducting links joins to a held node.
pub fn undetermined(sheet: &[u8], l: Layout, flows: &[f64], statuses: &[u8]) -> Option<usize>
    requires laid { Laid l sheet.now }
    requires ends_in { EndsIn l sheet.now }
    requires nodes_bound { (l.nodes ≤ 64) × (l.links ≤ 128) }
    requires links_in_bounds { (l.links ≤ length flows.now) × (l.links ≤ length statuses.now) }
    ensures { result ≡ undetermined_of sheet.now l flows.now statuses.now }
{
    let mut starts = [0usize; 128];
    let mut ends = [0usize; 128];
    let mut joins = [false; 128];
    let mut reached = [false; 64];
    let mut needs = [false; 64];
    put_ends(sheet, l, &mut starts, &mut ends);
    fill_with(
        &mut joins,
        l.links,
        |j| joins_at(sheet, l, flows, statuses, j),
    );
    fill_with(&mut reached, l.nodes, |i| is_fixed(sheet, l, i));
    mark_held(sheet, l, statuses, &mut reached);
    fill_with(&mut needs, l.nodes, |i| in_service(sheet, l, i));
    spread(l.nodes, l.links, &starts, &ends, &joins, &mut reached);
    first_unjoined(l.nodes, &needs, &reached)
}
