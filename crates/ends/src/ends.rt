// The ends of the links: refusal 4.
ghost use Rattle.std.specs.Prelude.{◌≡◌, ◌+◌, ◌≤◌, ◌<◌, length};
ghost use Rattle.layout.specs.Places.{Laid};
ghost use Rattle.records.specs.Records.{pair_at};
ghost use Rattle.ends.specs.Ends.{ends_good};

use layout::Layout;
use nodes::in_service;
use records::pair_at;

// No link joins a node to itself, no PRV ends and no PSV starts at a node that is no junction in service.
pub fn ends_good(sheet: &[u8], l: Layout, at: usize) -> bool
    requires laid { Laid l sheet.now }
    requires at_in_bounds { at + 49 ≤ length sheet.now }
    requires at_bound { (pair_at sheet.now (at + 5) < l.nodes) × (pair_at sheet.now (at + 7) < l.nodes) }
    ensures { result ≡ ends_good l sheet.now at }
{
    let kind = sheet[at + 2];
    let start = pair_at(sheet, at + 5);
    let end = pair_at(sheet, at + 7);
    (start != end)
        & ((kind != 1) | in_service(sheet, l, end))
        & ((kind != 2) | in_service(sheet, l, start))
}
