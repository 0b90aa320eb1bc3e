// One link's part of the matrix and the right side, with its coefficients and its ends' rows.
#![tactic(auto)]

ghost use Rattle.std.specs.Prelude.{◌≡◌, ◌<◌, ◌≤◌, length};
ghost use Rattle.layout.specs.Places.{Laid};
ghost use Rattle.links.specs.Links.{link_of};
ghost use Rattle.link_rows.specs.LinkRows.{system, Given, Sized, view, coefficients_at, link_placed, link_added};

use codes::Status;
use coefficient::Coefficients;
use layout::Layout;
use links::link;
use nodes::{NodeIndex, elevation, is_enabled, is_fixed};
use numbering::unknown_of;
use power::PowerTable;
use records::Link;
use scatter::{link_into_matrix, link_into_row};

// The coefficients of a link at its flow and status.
pub fn coefficients_at(
    sheet: &[u8],
    l: Layout,
    table: &PowerTable,
    k: Link,
    j: usize,
    flows: &[f64],
    statuses: &[u8],
    excess: &[f64],
) -> Coefficients
    requires laid { Laid l sheet.now }
    requires nodes_in_bounds { (l.nodes ≤ length excess.now) × ((j < length flows.now) × (j < length statuses.now)) }
    requires start_lt_nodes { (k.start < l.nodes) × (k.end < l.nodes) }
    ensures { result ≡ coefficients_at sheet.now l flows.now statuses.now excess.now k j }
{
    let start = k.start;
    let end = k.end;
    let up = elevation(sheet, l, start);
    let down = elevation(sheet, l, end);
    let status = Status::from(statuses[j]);
    model::coefficients(
        k,
        status,
        flows[j],
        excess[start],
        excess[end],
        up,
        down,
        table,
    )
}

// A link in service, with its coefficients.
fn place_link(
    sheet: &[u8],
    l: Layout,
    unknowns: &[usize],
    k: Link,
    c: Coefficients,
    j: usize,
    heads: &[f64],
    flows: &[f64],
    statuses: &[u8],
    excess: &[f64],
    matrix: &mut [f64],
    rhs: &mut [f64],
    g: &mut [f64],
    y: &mut [f64],
)
    requires given { Given l sheet.now unknowns.now (view heads.now flows.now statuses.now excess.now) }
    requires sized { Sized l (system matrix.old rhs.old g.old y.old) }
    requires j_lt_links { (j < l.links) × ((k.start < l.nodes) × (k.end < l.nodes)) }
    ensures { system matrix.new rhs.new g.new y.new ≡ link_placed sheet.now l (view heads.now flows.now statuses.now excess.now) k c j (system matrix.old rhs.old g.old y.old) }
{
    let start = k.start;
    let end = k.end;
    let u = unknown_of(unknowns, NodeIndex(start));
    let v = unknown_of(unknowns, NodeIndex(end));
    let fixed_start = is_fixed(sheet, l, start);
    let fixed_end = is_fixed(sheet, l, end);
    let q = flows[j];
    let head_start = heads[start];
    let head_end = heads[end];
    g[j] = c.conductance;
    y[j] = c.offset;
    link_into_matrix(u, v, c, matrix);
    link_into_row(
        u,
        v,
        c,
        q,
        fixed_start,
        fixed_end,
        head_start,
        head_end,
        rhs,
    );
}

// One link, which changes nothing where a node at an end is disabled.
pub fn add_link(
    sheet: &[u8],
    l: Layout,
    unknowns: &[usize],
    table: &PowerTable,
    j: usize,
    heads: &[f64],
    flows: &[f64],
    statuses: &[u8],
    excess: &[f64],
    matrix: &mut [f64],
    rhs: &mut [f64],
    g: &mut [f64],
    y: &mut [f64],
)
    requires given { Given l sheet.now unknowns.now (view heads.now flows.now statuses.now excess.now) }
    requires sized { Sized l (system matrix.old rhs.old g.old y.old) }
    requires j_lt_links { j < l.links }
    ensures { system matrix.new rhs.new g.new y.new ≡ link_added sheet.now l (view heads.now flows.now statuses.now excess.now) (link_of sheet.now l j) j (system matrix.old rhs.old g.old y.old) }
{
    let k = link(sheet, l, j);
    let start = k.start;
    let end = k.end;
    if is_enabled(sheet, l, start) & is_enabled(sheet, l, end) {
        let c = coefficients_at(sheet, l, table, k, j, flows, statuses, excess);
        place_link(
            sheet, l, unknowns, k, c, j, heads, flows, statuses, excess, matrix, rhs, g, y,
        );
    }
}
