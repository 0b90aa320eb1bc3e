// An EPANET text made into a sheet, as C calls it (include/desk.h).
#![tactic(auto)]

ghost use Rattle.std.specs.Prelude.{◌≡◌};
ghost use Rattle.from_text.specs.FromText.{from_text};
ghost use Rattle.desk_text.specs.Told.{counts_of, told_of};

use from_text::{Taken, from_text};

// What is told of a text as six counts: number, place, nodes, links, bytes of the sheet and of the names.
fn counts_of(t: Taken) -> [u64; 6]
    ensures { result ≡ counts_of t }
{
    [
        t.number as u64,
        t.place as u64,
        t.nodes as u64,
        t.links as u64,
        t.bytes as u64,
        t.names as u64,
    ]
}

// The sheet of any text and the names of its nodes and links, with any buffers, and what is told of it.
#[unsafe(no_mangle)]
pub extern "C" fn desk_text(text: &[u8], sheet: &mut [u8], names: &mut [u8], counts: &mut [u64; 6])
    ensures { record { counts = counts.exit.now; sheet = sheet.new; names = names.new } ≡ told_of (from_text text.now sheet.old names.old) }
{
    let t = from_text(text, sheet, names);
    *counts = counts_of(t);
}
