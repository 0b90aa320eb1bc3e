// Which records stand in a sheet, one behind the other.
ghost use Rattle.std.specs.Prelude.{◌≡◌, ◌≤◌, length};
ghost use Rattle.sheet.specs.Scan.{readable, records_from, layout_of};

use layout::{LK_SIZE, Layout, ND_SIZE, OP_SIZE, PD_SIZE, heading};

// Whether a whole record of `size` bytes with the mark's two letters stands at `at`.
pub fn is_record(sheet: &[u8], at: usize, first: u8, second: u8, size: usize) -> bool
    requires { (at ≤ length sheet.now) × (2 ≤ size) }
    ensures { result ≡ readable first second size sheet.now at }
{
    if sheet.len() - at < size {
        return false;
    }
    (sheet[at] == first) & (sheet[at + 1] == second)
}

// How many such records stand one behind the other from `from` on.
pub fn count_records(sheet: &[u8], from: usize, first: u8, second: u8, size: usize) -> usize
    requires { (from ≤ length sheet.now) × (2 ≤ size) }
    ensures { result ≡ records_from first second size (length sheet.now) sheet.now from }
{
    let mut at = from;
    let mut n: usize = 0;
    while is_record(sheet, at, first, second, size) {
        at += size;
        n += 1;
    }
    n
}

// The layout of a sheet that begins with an OP: behind it a PD or none, all ND, then all LK.
pub fn lay_out(sheet: &[u8]) -> Layout
    requires { 29 ≤ length sheet.now }
    ensures { result ≡ layout_of sheet.now }
{
    let pressures = is_record(sheet, OP_SIZE, b'P', b'D', PD_SIZE);
    let node0 = heading(pressures);
    let nodes = count_records(sheet, node0, b'N', b'D', ND_SIZE);
    let link0 = node0 + ND_SIZE * nodes;
    let links = count_records(sheet, link0, b'L', b'K', LK_SIZE);
    Layout {
        nodes: nodes,
        links: links,
        unknowns: 0,
        node0: node0,
        link0: link0,
        stride: LK_SIZE,
        pressures: pressures,
    }
}
