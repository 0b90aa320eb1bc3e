// The links of a sheet: their fields by (sheet, layout, index). No other crate knows where in a
// link's record a field stands, but for those that do the reading.
#![tactic(auto)]

ghost use Rattle.std.specs.Prelude.{◌≡◌, ◌<◌};
ghost use Rattle.layout.specs.Places.{Laid};
ghost use Rattle.links.specs.Links.{link_of, link_start, link_end, link_status, regulator};

use layout::{Layout, link_place};
use records::{Link, link_at, pair_at};

// A link, by its number.
#[derive(Clone, Copy)]
pub struct LinkIndex(pub usize);

// The whole record of link j.
pub fn link(sheet: &[u8], l: Layout, j: usize) -> Link
    requires laid { Laid l sheet.now }
    requires j_lt_links { j < l.links }
    ensures { result ≡ link_of sheet.now l j }
{
    link_at(sheet, link_place(l, j))
}

// The node at which a link starts.
pub fn link_start(sheet: &[u8], l: Layout, j: usize) -> usize
    requires laid { Laid l sheet.now }
    requires j_lt_links { j < l.links }
    ensures { result ≡ link_start sheet.now l j }
{
    pair_at(sheet, link_place(l, j) + 5)
}

// The node at which it ends.
pub fn link_end(sheet: &[u8], l: Layout, j: usize) -> usize
    requires laid { Laid l sheet.now }
    requires j_lt_links { j < l.links }
    ensures { result ≡ link_end sheet.now l j }
{
    pair_at(sheet, link_place(l, j) + 7)
}

// The code of its status in the sheet.
pub fn link_status(sheet: &[u8], l: Layout, j: usize) -> u8
    requires laid { Laid l sheet.now }
    requires j_lt_links { j < l.links }
    ensures { result ≡ link_status sheet.now l j }
{
    sheet[link_place(l, j) + 4]
}

// Whether it is a PRV or a PSV, at any status.
pub fn is_regulator(sheet: &[u8], l: Layout, j: usize) -> bool
    requires laid { Laid l sheet.now }
    requires j_lt_links { j < l.links }
    ensures { result ≡ regulator sheet.now l j }
{
    let kind = sheet[link_place(l, j) + 2];
    (kind == 1) | (kind == 2)
}
