// Line 5 of the verdict: would a link's own law move its flow?
#![tactic(auto)]

ghost use Rattle.std.specs.Prelude.{◌≡◌, ◌<◌, ◌≤◌, length};
ghost use Rattle.layout.specs.Places.{Laid};
ghost use Rattle.links.specs.Links.{EndsIn};
ghost use Rattle.link_rows.specs.LinkRows.{view};
ghost use Rattle.link_laws.specs.LinkLaws.{change_by, slight, moves, unsettled_of};

use coefficient::Coefficients;
use layout::Layout;
use link_rows::coefficients_at;
use links::link;
use nodes::is_enabled;
use power::PowerTable;
use records::Link;
use search::first_where;
use tolerance::{Limits, within};

// The change of a link's flow by its law, as crate update has it before damping.
fn change_by(k: Link, c: Coefficients, heads: &[f64]) -> f64
    requires { (k.start < length heads.now) × (k.end < length heads.now) }
    ensures { result ≡ change_by heads.now k c }
{
    let start = k.start;
    let end = k.end;
    let dh = heads[start] - heads[end];
    c.offset - c.conductance * dh
}

// Whether a change is small: by itself, or as the change of a head. One of the two is a fair measure
// at each end, since conductances run from 1e-8 to 1e8.
fn is_slight(m: f64, g: f64, limits: Limits) -> bool
    ensures { result ≡ slight m g limits }
{
    let by_flow = within(m, limits.flow);
    let by_head = within(m, limits.head * g);
    by_flow | by_head
}

// Whether link j is in service and its law would move it.
fn moves_at(
    sheet: &[u8],
    l: Layout,
    table: &PowerTable,
    j: usize,
    heads: &[f64],
    flows: &[f64],
    statuses: &[u8],
    excess: &[f64],
    limits: Limits,
) -> bool
    requires laid { Laid l sheet.now }
    requires ends_in { EndsIn l sheet.now }
    requires nodes_in_bounds { (l.nodes ≤ length heads.now) × ((l.nodes ≤ length excess.now) × ((l.links ≤ length flows.now) × (l.links ≤ length statuses.now))) }
    requires j_lt_links { j < l.links }
    ensures { result ≡ moves sheet.now l (view heads.now flows.now statuses.now excess.now) limits j }
{
    let k = link(sheet, l, j);
    let start = k.start;
    let end = k.end;
    if is_enabled(sheet, l, start) & is_enabled(sheet, l, end) {
        let c = coefficients_at(sheet, l, table, k, j, flows, statuses, excess);
        let m = change_by(k, c, heads);
        return !is_slight(m, c.conductance, limits);
    }
    false
}

// The lowest link in service that its own law would move, by its coefficients at this flow, status
// and these excess flows, neither within `flow` of 0 nor within `head` times its conductance.
pub fn unsettled(
    sheet: &[u8],
    l: Layout,
    table: &PowerTable,
    heads: &[f64],
    flows: &[f64],
    statuses: &[u8],
    excess: &[f64],
    limits: Limits,
) -> Option<usize>
    requires laid { Laid l sheet.now }
    requires ends_in { EndsIn l sheet.now }
    requires nodes_in_bounds { (l.nodes ≤ length heads.now) × ((l.nodes ≤ length excess.now) × ((l.links ≤ length flows.now) × (l.links ≤ length statuses.now))) }
    ensures { result ≡ unsettled_of sheet.now l (view heads.now flows.now statuses.now excess.now) limits }
{
    first_where(l.links, |j| {
        moves_at(sheet, l, table, j, heads, flows, statuses, excess, limits)
    })
}
