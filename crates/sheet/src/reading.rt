// Reading a sheet: refusals 1 to 4, each over the whole sheet before the next, or its layout.
ghost use Rattle.std.specs.Prelude.{◌≡◌};
ghost use Rattle.layout.specs.Places.{Laid};
ghost use Rattle.links.specs.Links.{EndsIn};
ghost use Rattle.sheet.specs.Read.{bad_node, bad_link, pressures_fine, bad_field, bad_ends, with_unknowns, checked, after_scan, read_with, read_of};

use crate::scan::{is_record, lay_out};
use ends::ends_good;
use fields::{Bounds, base_bounds, link_good, node_good, options_good, pressures_good};
use layout::{Layout, OP_SIZE, link_place, node_place};
use nodes::count_serving;
use refusals::Refusal;

// The first node with a field outside its bounds.
fn bad_node(sheet: &[u8], l: Layout, b: Bounds) -> Option<usize>
    requires { Laid l sheet.now }
    ensures { result ≡ bad_node b l sheet.now }
{
    for i in 0..l.nodes {
        let at = node_place(l, i);
        if !node_good(sheet, at, b) {
            return Some(at);
        }
    }
    None
}

// The first link with a field outside its bounds.
fn bad_link(sheet: &[u8], l: Layout, b: Bounds) -> Option<usize>
    requires { Laid l sheet.now }
    ensures { result ≡ bad_link b l sheet.now }
{
    for j in 0..l.links {
        let at = link_place(l, j);
        if !link_good(sheet, at, l.nodes, b) {
            return Some(at);
        }
    }
    None
}

// Whether there is no PD, or one within its bounds.
fn pressures_fine(sheet: &[u8], l: Layout, b: Bounds) -> bool
    requires { Laid l sheet.now }
    ensures { result ≡ pressures_fine b l sheet.now }
{
    if l.pressures {
        return pressures_good(sheet, b);
    }
    true
}

// The first record with a field outside its bounds.
fn bad_field(sheet: &[u8], l: Layout, b: Bounds) -> Option<usize>
    requires { Laid l sheet.now }
    ensures { result ≡ bad_field b l sheet.now }
{
    let options = options_good(sheet, b);
    let pressures = pressures_fine(sheet, l, b);
    if !options {
        return Some(0);
    }
    if !pressures {
        return Some(OP_SIZE);
    }
    let Some(at) = bad_node(sheet, l, b) else {
        return bad_link(sheet, l, b);
    };
    Some(at)
}

// The first link whose ends are not good.
fn bad_ends(sheet: &[u8], l: Layout) -> Option<usize>
    requires laid { Laid l sheet.now }
    requires ends_in { EndsIn l sheet.now }
    ensures { result ≡ bad_ends l sheet.now }
{
    for j in 0..l.links {
        let at = link_place(l, j);
        if !ends_good(sheet, l, at) {
            return Some(at);
        }
    }
    None
}

// A layout with its unknowns counted.
fn with_unknowns(sheet: &[u8], l: Layout) -> Layout
    requires { Laid l sheet.now }
    ensures { result ≡ with_unknowns sheet.now l }
{
    Layout {
        nodes: l.nodes,
        links: l.links,
        unknowns: count_serving(sheet, l),
        node0: l.node0,
        link0: l.link0,
        stride: l.stride,
        pressures: l.pressures,
    }
}

// Refusals 3 and 4 of a sheet that is laid out so.
fn check(sheet: &[u8], l: Layout, b: Bounds) -> Result<Layout, Refusal>
    requires { Laid l sheet.now }
    ensures { result ≡ checked b l sheet.now }
{
    let field = bad_field(sheet, l, b);
    if let Some(at) = field {
        return Err(Refusal::Field(at));
    }
    let ends = bad_ends(sheet, l);
    if let Some(at) = ends {
        return Err(Refusal::Ends(at));
    }
    Ok(with_unknowns(sheet, l))
}

// Refusals 2 to 4 of a sheet that is laid out so.
fn check_counts(sheet: &[u8], l: Layout, b: Bounds) -> Result<Layout, Refusal>
    requires { Laid l sheet.now }
    ensures { result ≡ after_scan b l sheet.now }
{
    if l.nodes < 1 {
        return Err(Refusal::NodeCount);
    }
    if b.nodes < l.nodes {
        return Err(Refusal::NodeCount);
    }
    if b.links < l.links {
        return Err(Refusal::LinkCount);
    }
    check(sheet, l, b)
}

// The layout of a sheet within given bounds, or its refusal.
pub fn read_within(sheet: &[u8], b: Bounds) -> Result<Layout, Refusal>
    ensures { result ≡ read_with b sheet.now }
{
    if !is_record(sheet, 0, b'O', b'P', OP_SIZE) {
        return Err(Refusal::Unreadable(0));
    }
    let l = lay_out(sheet);
    let end = link_place(l, l.links);
    if end != sheet.len() {
        return Err(Refusal::Unreadable(end));
    }
    check_counts(sheet, l, b)
}

// The layout of a sheet within document 01's bounds, or its refusal.
pub fn read(sheet: &[u8]) -> Result<Layout, Refusal>
    ensures { result ≡ read_of sheet.now }
{
    read_within(sheet, base_bounds())
}
