// One entry of the matrix or of the right side, by the rows of the nodes.
#![tactic(auto)]

ghost use Rattle.std.specs.Prelude.{◌≡◌, ◌≤◌, length};
ghost use Rattle.numbering.specs.Numbering.{RowBelow};
ghost use Rattle.rows.specs.Rows.{on_row, off_row, on_diagonal, off_between};

use columns::{add_to, take_from};
use numbering::Row;

// Adds to a row of the right side; a node that is no unknown has none.
pub fn add_to_row(row: Row, x: f64, rhs: &mut [f64])
    requires in_bounds { 64 ≤ length rhs.old }
    requires row_below { RowBelow 64 row }
    ensures { rhs.new ≡ on_row row x rhs.old }
{
    let Some(u) = row else {
        return;
    };
    add_to(rhs, u.0, x);
}

pub fn take_from_row(row: Row, x: f64, rhs: &mut [f64])
    requires in_bounds { 64 ≤ length rhs.old }
    requires row_below { RowBelow 64 row }
    ensures { rhs.new ≡ off_row row x rhs.old }
{
    let Some(u) = row else {
        return;
    };
    take_from(rhs, u.0, x);
}

pub fn add_to_diagonal(row: Row, x: f64, matrix: &mut [f64])
    requires matrix_len { length matrix.old ≡ 4096 }
    requires row_below { RowBelow 64 row }
    ensures { matrix.new ≡ on_diagonal row x matrix.old }
{
    let Some(u) = row else {
        return;
    };
    let i = u.0;
    add_to(matrix, 64 * i + i, x);
}

// Takes from the entry of two unknowns: the greater one's row of the smaller one's column.
pub fn take_between(start: Row, end: Row, x: f64, matrix: &mut [f64])
    requires matrix_len { length matrix.old ≡ 4096 }
    requires row_below { RowBelow 64 start }
    requires row_below_2 { RowBelow 64 end }
    ensures { matrix.new ≡ off_between start end x matrix.old }
{
    let Some(u) = start else {
        return;
    };
    let Some(v) = end else {
        return;
    };
    let i = u.0;
    let j = v.0;
    if i < j {
        take_from(matrix, 64 * i + j, x);
    } else {
        take_from(matrix, 64 * j + i, x);
    }
}
