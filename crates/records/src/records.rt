// The records of a sheet, each read by value from the bytes at its offset.
ghost use Rattle.std.specs.Prelude.{◌≡◌, ◌+◌, ◌≤◌, length};
ghost use Rattle.records.specs.Records.{options_of, pressures_of, node_at, link_at, pair_at};

use codes::{LinkKind, NodeKind, Status};
use patterns::{from_bytes, two_bytes};

// OP: accuracy, damping limit, max flow change, trials, flow unit.
#[derive(Clone, Copy)]
pub struct Options {
    pub accuracy: f64,
    pub damping: f64,
    pub change: f64,
    pub trials: usize,
    pub unit: usize,
}

// PD: minimum and required pressure.
#[derive(Clone, Copy)]
pub struct Pressures {
    pub minimum: f64,
    pub required: f64,
}

// ND: kind, disabled, elevation, demand, head, max level, min level, overflow.
#[derive(Clone, Copy)]
pub struct Node {
    pub kind: NodeKind,
    pub disabled: bool,
    pub elevation: f64,
    pub demand: f64,
    pub head: f64,
    pub highest: f64,
    pub lowest: f64,
    pub overflow: bool,
}

// LK: kind, check valve, status, start, end, setting, minor loss, diameter, resistance, flow.
#[derive(Clone, Copy)]
pub struct Link {
    pub kind: LinkKind,
    pub check: bool,
    pub status: Status,
    pub start: usize,
    pub end: usize,
    pub setting: f64,
    pub minor: f64,
    pub diameter: f64,
    pub resistance: f64,
    pub flow: f64,
}

// The number of the two bytes from `at` on, the lower one first.
pub fn pair_at(s: &[u8], at: usize) -> usize
    requires { at + 2 ≤ length s.now }
    ensures { result ≡ pair_at s.now at }
{
    two_bytes(s, at) as usize
}

pub fn options_of(sheet: &[u8]) -> Options
    requires { 29 ≤ length sheet.now }
    ensures { result ≡ options_of sheet.now }
{
    Options {
        accuracy: from_bytes(sheet, 2),
        damping: from_bytes(sheet, 10),
        change: from_bytes(sheet, 18),
        trials: pair_at(sheet, 26),
        unit: sheet[28] as usize,
    }
}

// A PD stands straight after OP.
pub fn pressures_of(sheet: &[u8]) -> Pressures
    requires { 47 ≤ length sheet.now }
    ensures { result ≡ pressures_of sheet.now }
{
    Pressures {
        minimum: from_bytes(sheet, 31),
        required: from_bytes(sheet, 39),
    }
}

pub fn node_at(sheet: &[u8], at: usize) -> Node
    requires { at + 45 ≤ length sheet.now }
    ensures { result ≡ node_at sheet.now at }
{
    Node {
        kind: NodeKind::from(sheet[at + 2]),
        disabled: sheet[at + 3] == 1,
        elevation: from_bytes(sheet, at + 4),
        demand: from_bytes(sheet, at + 12),
        head: from_bytes(sheet, at + 20),
        highest: from_bytes(sheet, at + 28),
        lowest: from_bytes(sheet, at + 36),
        overflow: sheet[at + 44] == 1,
    }
}

pub fn link_at(sheet: &[u8], at: usize) -> Link
    requires { at + 49 ≤ length sheet.now }
    ensures { result ≡ link_at sheet.now at }
{
    Link {
        kind: LinkKind::from(sheet[at + 2]),
        check: sheet[at + 3] == 1,
        status: Status::from(sheet[at + 4]),
        start: pair_at(sheet, at + 5),
        end: pair_at(sheet, at + 7),
        setting: from_bytes(sheet, at + 9),
        minor: from_bytes(sheet, at + 17),
        diameter: from_bytes(sheet, at + 25),
        resistance: from_bytes(sheet, at + 33),
        flow: from_bytes(sheet, at + 41),
    }
}
