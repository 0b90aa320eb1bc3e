// The matrix and the right side: links in order, then bends and node demands, then the grounded
// diagonals.
ghost use Rattle.std.specs.Prelude.{◌≡◌, ◌≤◌, length};
ghost use Rattle.numbering.specs.Numbering.{RowsRight, RowBelow};
ghost use Rattle.bends.specs.Bends.{Bending, bent_matrix};
ghost use Rattle.columns.specs.Columns.{zeros};
ghost use Rattle.assembly.specs.Assembly.{system, Given, Sized, view, with_links, demands_taken, right_of, ground_of, grounded_of, assemble_of};

use bends::add_bends;
use columns::clear;
use constants::SMALL_VALUE;
use drawing::counts;
use layout::Layout;
use link_rows::add_link;
use nodes::NodeIndex;
use numbering::{Row, unknown_of};
use power::PowerTable;
use rows::{add_to_diagonal, take_from_row};

// All links in order.
fn add_links(
    sheet: &[u8],
    l: Layout,
    unknowns: &[usize],
    table: &PowerTable,
    heads: &[f64],
    flows: &[f64],
    statuses: &[u8],
    excess: &[f64],
    matrix: &mut [f64],
    rhs: &mut [f64],
    g: &mut [f64],
    y: &mut [f64],
)
    requires given { Given l sheet.now unknowns.now (view heads.now flows.now statuses.now excess.now) }
    requires sized { Sized l (system matrix.old rhs.old g.old y.old) }
    ensures { system matrix.new rhs.new g.new y.new ≡ with_links sheet.now l (view heads.now flows.now statuses.now excess.now) l.links (system matrix.old rhs.old g.old y.old) }
{
    for j in 0..l.links {
        add_link(
            sheet, l, unknowns, table, j, heads, flows, statuses, excess, matrix, rhs, g, y,
        );
    }
}

// Takes each junction's demand from its row.
fn take_demands(sheet: &[u8], l: Layout, unknowns: &[usize], demands: &[f64], rhs: &mut [f64])
    requires nodes_bound { (l.nodes ≤ 64) × ((l.nodes ≤ length demands.now) × ((l.nodes ≤ length unknowns.now) × (64 ≤ length rhs.old))) }
    requires rows_right { RowsRight l sheet.now unknowns.now }
    ensures { rhs.new ≡ demands_taken sheet.now l demands.now l.nodes rhs.old }
{
    for i in 0..l.nodes {
        let row = unknown_of(unknowns, NodeIndex(i));
        take_from_row(row, demands[i], rhs);
    }
}

// The bends, then the demands that count.
fn add_demands<'a>(
    sheet: &[u8],
    l: Layout,
    unknowns: &[usize],
    demands: &'a [f64],
    drawn: &'a [f64],
    matrix: &mut [f64],
    rhs: &mut [f64],
)
    requires bending { Bending l sheet.now unknowns.now demands.now drawn.now }
    requires matrix_len { (length matrix.old ≡ 4096) × (64 ≤ length rhs.old) }
    ensures matrix { matrix.new ≡ bent_matrix sheet.now l demands.now drawn.now matrix.old }
    ensures rhs { rhs.new ≡ right_of sheet.now l demands.now drawn.now rhs.old }
{
    add_bends(sheet, l, unknowns, demands, drawn, matrix, rhs);
    let counted = counts(l.pressures, drawn, demands);
    take_demands(sheet, l, unknowns, counted, rhs);
}

// Adds SMALL_VALUE on the diagonal of a grounded node.
fn ground(grounded: bool, row: Row, matrix: &mut [f64])
    requires matrix_len { length matrix.old ≡ 4096 }
    requires row_below { RowBelow 64 row }
    ensures { matrix.new ≡ ground_of grounded row matrix.old }
{
    if grounded {
        add_to_diagonal(row, SMALL_VALUE, matrix);
    }
}

fn add_grounded(sheet: &[u8], l: Layout, unknowns: &[usize], grounded: &[bool], matrix: &mut [f64])
    requires nodes_bound { (l.nodes ≤ 64) × ((l.nodes ≤ length grounded.now) × ((l.nodes ≤ length unknowns.now) × (length matrix.old ≡ 4096))) }
    requires rows_right { RowsRight l sheet.now unknowns.now }
    ensures { matrix.new ≡ grounded_of sheet.now l grounded.now l.nodes matrix.old }
{
    for i in 0..l.nodes {
        let row = unknown_of(unknowns, NodeIndex(i));
        ground(grounded[i], row, matrix);
    }
}

// Fills the matrix, which is all +0.0, the right side, whatever it held, and the links' g and y. The
// columns of links that are not in service keep what they held.
pub fn assemble<'a>(
    sheet: &[u8],
    l: Layout,
    unknowns: &[usize],
    table: &PowerTable,
    heads: &[f64],
    demands: &'a [f64],
    drawn: &'a [f64],
    flows: &[f64],
    statuses: &[u8],
    grounded: &[bool],
    excess: &[f64],
    matrix: &mut [f64],
    rhs: &mut [f64],
    g: &mut [f64],
    y: &mut [f64],
)
    requires given { Given l sheet.now unknowns.now (view heads.now flows.now statuses.now excess.now) }
    requires sized { Sized l (system matrix.old rhs.old g.old y.old) }
    requires matrix_value { matrix.old ≡ zeros 4096 }
    requires nodes_in_bounds { (l.nodes ≤ length demands.now) × ((l.nodes ≤ length drawn.now) × (l.nodes ≤ length grounded.now)) }
    ensures { system matrix.new rhs.new g.new y.new ≡ assemble_of sheet.now l (view heads.now flows.now statuses.now excess.now) demands.now drawn.now grounded.now (system matrix.old rhs.old g.old y.old) }
{
    clear(64, rhs);
    add_links(
        sheet, l, unknowns, table, heads, flows, statuses, excess, matrix, rhs, g, y,
    );
    add_demands(sheet, l, unknowns, demands, drawn, matrix, rhs);
    add_grounded(sheet, l, unknowns, grounded, matrix);
}
