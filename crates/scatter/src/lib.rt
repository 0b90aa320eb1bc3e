// What one link adds to the matrix and to the right side.
#![tactic(auto)]

ghost use Rattle.std.specs.Prelude.{◌≡◌, ◌≤◌, length};
ghost use Rattle.numbering.specs.Numbering.{RowBelow};
ghost use Rattle.scatter.specs.Scatter.{given_diagonal, given_row, fixed_term, link_matrix, link_row};

use coefficient::{Coefficients, NodeAddition};
use numbering::Row;
use rows::{add_to_diagonal, add_to_row, take_between, take_from_row};

// A regulator's addition. An absent one is not added: 0.0 would turn a -0.0.
fn add_given_diagonal(addition: Option<NodeAddition>, row: Row, matrix: &mut [f64])
    requires matrix_len { length matrix.old ≡ 4096 }
    requires row_below { RowBelow 64 row }
    ensures { matrix.new ≡ given_diagonal addition row matrix.old }
{
    if let Some(a) = addition {
        add_to_diagonal(row, a.diagonal, matrix);
    }
}

fn add_given_row(addition: Option<NodeAddition>, row: Row, rhs: &mut [f64])
    requires in_bounds { 64 ≤ length rhs.old }
    requires row_below { RowBelow 64 row }
    ensures { rhs.new ≡ given_row addition row rhs.old }
{
    if let Some(a) = addition {
        add_to_row(row, a.rhs, rhs);
    }
}

// The term of a fixed head at the other end.
fn add_fixed(fixed: bool, row: Row, x: f64, rhs: &mut [f64])
    requires in_bounds { 64 ≤ length rhs.old }
    requires row_below { RowBelow 64 row }
    ensures { rhs.new ≡ fixed_term fixed row x rhs.old }
{
    if fixed {
        add_to_row(row, x, rhs);
    }
}

pub fn link_into_matrix(start: Row, end: Row, c: Coefficients, matrix: &mut [f64])
    requires matrix_len { length matrix.old ≡ 4096 }
    requires row_below { RowBelow 64 start }
    requires row_below_2 { RowBelow 64 end }
    ensures { matrix.new ≡ link_matrix start end c matrix.old }
{
    let up = c.upstream;
    let down = c.downstream;
    add_to_diagonal(start, c.conductance, matrix);
    add_to_diagonal(end, c.conductance, matrix);
    take_between(start, end, c.conductance, matrix);
    add_given_diagonal(up, start, matrix);
    add_given_diagonal(down, end, matrix);
}

pub fn link_into_row(
    start: Row,
    end: Row,
    c: Coefficients,
    q: f64,
    fixed_start: bool,
    fixed_end: bool,
    head_start: f64,
    head_end: f64,
    rhs: &mut [f64],
)
    requires in_bounds { 64 ≤ length rhs.old }
    requires row_below { RowBelow 64 start }
    requires row_below_2 { RowBelow 64 end }
    ensures { rhs.new ≡ link_row start end c q fixed_start fixed_end head_start head_end rhs.old }
{
    let up = c.upstream;
    let down = c.downstream;
    take_from_row(start, q - c.offset, rhs);
    add_fixed(fixed_end, start, c.conductance * head_end, rhs);
    add_to_row(end, q - c.offset, rhs);
    add_fixed(fixed_start, end, c.conductance * head_start, rhs);
    add_given_row(up, start, rhs);
    add_given_row(down, end, rhs);
}
