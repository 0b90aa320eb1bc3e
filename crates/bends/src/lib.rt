// What demands that give way to pressure add to the matrix and to the right side.
#![tactic(auto)]

ghost use Rattle.std.specs.Prelude.{◌≡◌, ◌<◌, ◌≤◌, length};
ghost use Rattle.numbering.specs.Numbering.{RowBelow};
ghost use Rattle.bends.specs.Bends.{bend_row, bend_diagonal, Bending, node_diagonal, node_row, diagonal_bends, row_bends, bent_matrix, bent_right};

use drawing::{Bend, bend_of, gives_way, pressure_range};
use layout::Layout;
use nodes::{NodeIndex, elevation, in_service};
use numbering::{Row, unknown_of};
use records::{Pressures, pressures_of};
use rows::{add_to_diagonal, add_to_row};

// The bend of a node's demand, where it has a gradient above 0.
fn add_bend(b: Bend, elevation: f64, minimum: f64, row: Row, matrix: &mut [f64], rhs: &mut [f64])
    requires matrix_len { (length matrix.old ≡ 4096) × (64 ≤ length rhs.old) }
    requires row_below { RowBelow 64 row }
    ensures matrix { matrix.new ≡ bend_diagonal b row matrix.old }
    ensures rhs { rhs.new ≡ bend_row b elevation minimum row rhs.old }
{
    if 1.0 / b.conductance > 0.0 {
        add_to_row(row, (b.offset + elevation + minimum) * b.conductance, rhs);
        add_to_diagonal(row, b.conductance, matrix);
    }
}

// The bend of node i's demand, where it gives way.
fn bend_node(
    sheet: &[u8],
    l: Layout,
    p: Pressures,
    unknowns: &[usize],
    i: usize,
    asked: &[f64],
    drawn: &[f64],
    matrix: &mut [f64],
    rhs: &mut [f64],
)
    requires bending { Bending l sheet.now unknowns.now asked.now drawn.now }
    requires matrix_len { (length matrix.old ≡ 4096) × ((64 ≤ length rhs.old) × (i < l.nodes)) }
    ensures matrix { matrix.new ≡ node_diagonal sheet.now l p asked.now drawn.now i matrix.old }
    ensures rhs { rhs.new ≡ node_row sheet.now l p asked.now drawn.now i rhs.old }
{
    if gives_way(in_service(sheet, l, i), asked[i]) {
        let row = unknown_of(unknowns, NodeIndex(i));
        let b = bend_of(drawn[i], asked[i], pressure_range(p));
        let up = elevation(sheet, l, i);
        add_bend(b, up, p.minimum, row, matrix, rhs);
    }
}

// The bends of all nodes, under these pressures.
fn bend_nodes(
    sheet: &[u8],
    l: Layout,
    p: Pressures,
    unknowns: &[usize],
    asked: &[f64],
    drawn: &[f64],
    matrix: &mut [f64],
    rhs: &mut [f64],
)
    requires bending { Bending l sheet.now unknowns.now asked.now drawn.now }
    requires matrix_len { (length matrix.old ≡ 4096) × (64 ≤ length rhs.old) }
    ensures matrix { matrix.new ≡ diagonal_bends sheet.now l p asked.now drawn.now l.nodes matrix.old }
    ensures rhs { rhs.new ≡ row_bends sheet.now l p asked.now drawn.now l.nodes rhs.old }
{
    for i in 0..l.nodes {
        bend_node(sheet, l, p, unknowns, i, asked, drawn, matrix, rhs);
    }
}

// The bends of all nodes, where a PD stands.
pub fn add_bends(
    sheet: &[u8],
    l: Layout,
    unknowns: &[usize],
    asked: &[f64],
    drawn: &[f64],
    matrix: &mut [f64],
    rhs: &mut [f64],
)
    requires bending { Bending l sheet.now unknowns.now asked.now drawn.now }
    requires matrix_len { (length matrix.old ≡ 4096) × (64 ≤ length rhs.old) }
    ensures matrix { matrix.new ≡ bent_matrix sheet.now l asked.now drawn.now matrix.old }
    ensures rhs { rhs.new ≡ bent_right sheet.now l asked.now drawn.now rhs.old }
{
    if l.pressures {
        bend_nodes(
            sheet,
            l,
            pressures_of(sheet),
            unknowns,
            asked,
            drawn,
            matrix,
            rhs,
        );
    }
}
