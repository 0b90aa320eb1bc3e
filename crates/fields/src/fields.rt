// The bounds of the fields: refusal 3.
ghost use Rattle.std.specs.Prelude.{◌≡◌, ◌+◌, ◌*◌, ◌≤◌, ◌<◌, length};
ghost use Rattle.fields.specs.Fields.{base_bounds, within, all_within, options_good, pressures_good, node_good, link_codes, link_numbers, link_good};

use float::abs;
use patterns::from_bytes;
use records::pair_at;

// What a sheet may hold: at most so many nodes and links, trials, the greatest code of a unit, the
// greatest magnitude of a number, and the least diameter of a valve.
#[derive(Clone, Copy)]
pub struct Bounds {
    pub nodes: usize,
    pub links: usize,
    pub trials: usize,
    pub unit: usize,
    pub magnitude: f64,
    pub diameter: f64,
}

// Document 01's bounds: 64 nodes, 128 links, 200 trials, units to 10, 2^40 and 2^-10.
pub fn base_bounds() -> Bounds
    ensures { result ≡ base_bounds }
{
    Bounds {
        nodes: 64,
        links: 128,
        trials: 200,
        unit: 10,
        magnitude: 1099511627776.0,
        diameter: 0.0009765625,
    }
}

// Finite and at most so large in magnitude.
fn is_within(x: f64, b: Bounds) -> bool
    ensures { result ≡ within b x }
{
    abs(x) <= b.magnitude
}

// So many floats from `at` on are.
fn all_within(sheet: &[u8], at: usize, count: usize, b: Bounds) -> bool
    requires { (at + 8 * count ≤ length sheet.now) × (count < 16) }
    ensures { result ≡ all_within b count sheet.now at }
{
    let mut good = true;
    for i in 0..count {
        good = good & is_within(from_bytes(sheet, at + 8 * i), b);
    }
    good
}

pub fn options_good(sheet: &[u8], b: Bounds) -> bool
    requires { 29 ≤ length sheet.now }
    ensures { result ≡ options_good b sheet.now }
{
    let trials = pair_at(sheet, 26);
    all_within(sheet, 2, 3, b)
        & (0.0 < from_bytes(sheet, 2))
        & (0.0 <= from_bytes(sheet, 10))
        & (0.0 <= from_bytes(sheet, 18))
        & (1 <= trials)
        & (trials <= b.trials)
        & (sheet[28] as usize <= b.unit)
}

pub fn pressures_good(sheet: &[u8], b: Bounds) -> bool
    requires { 47 ≤ length sheet.now }
    ensures { result ≡ pressures_good b sheet.now }
{
    all_within(sheet, 31, 2, b) & (from_bytes(sheet, 31) <= from_bytes(sheet, 39))
}

pub fn node_good(sheet: &[u8], at: usize, b: Bounds) -> bool
    requires { at + 45 ≤ length sheet.now }
    ensures { result ≡ node_good b sheet.now at }
{
    (sheet[at + 2] <= 2)
        & (sheet[at + 3] <= 1)
        & all_within(sheet, at + 4, 5, b)
        & (sheet[at + 44] <= 1)
}

// A link's codes are codes, its flag is one, and its ends are below the node count.
fn link_codes(sheet: &[u8], at: usize, nodes: usize) -> bool
    requires { at + 49 ≤ length sheet.now }
    ensures { result ≡ link_codes nodes sheet.now at }
{
    (sheet[at + 2] <= 6)
        & (sheet[at + 3] <= 1)
        & (sheet[at + 4] <= 7)
        & (pair_at(sheet, at + 5) < nodes)
        & (pair_at(sheet, at + 7) < nodes)
}

// A link's numbers are within their bounds. A valve's diameter has a least value, a pipe's is free.
fn link_numbers(sheet: &[u8], at: usize, b: Bounds) -> bool
    requires { at + 49 ≤ length sheet.now }
    ensures { result ≡ link_numbers b sheet.now at }
{
    all_within(sheet, at + 9, 5, b)
        & (0.0 <= from_bytes(sheet, at + 17))
        & (0.0 <= from_bytes(sheet, at + 33))
        & ((sheet[at + 2] == 0) | (b.diameter <= from_bytes(sheet, at + 25)))
}

pub fn link_good(sheet: &[u8], at: usize, nodes: usize, b: Bounds) -> bool
    requires { at + 49 ≤ length sheet.now }
    ensures { result ≡ link_good b nodes sheet.now at }
{
    link_codes(sheet, at, nodes) & link_numbers(sheet, at, b)
}
