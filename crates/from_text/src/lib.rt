// An EPANET text made into a sheet and a list of names, for any bytes and any buffers (document 02, [1]).
#![tactic(auto)]

ghost use Rattle.std.specs.Prelude.{◌≡◌, leb, length};
ghost use Rattle.text_sheet.specs.Sheet.{names_of};
ghost use Rattle.from_text.specs.FromText.{refused, put_of, from_text};

use known::Knowledge;
use named_lines::NamedLine;
use survey::survey;
use text_sheet::{put_names, put_sheet, room_behind, sheet_length};

// 0 at 0: the sheet and the names were put, with so many nodes and links, so many bytes of each.
// Else the refusal and its line (10, 11, 12), or 5 at 6, and all counts 0.
#[derive(Clone, Copy)]
pub struct Taken {
    pub number: usize,
    pub place: usize,
    pub nodes: usize,
    pub links: usize,
    pub bytes: usize,
    pub names: usize,
}

fn refused(number: usize, place: usize) -> Taken
    ensures { result ≡ refused number place }
{
    Taken {
        number,
        place,
        nodes: 0,
        links: 0,
        bytes: 0,
        names: 0,
    }
}

// Whether the names of nodes and links fit into so many bytes.
fn names_fit(known: &Knowledge<'_>, room: usize) -> bool
    ensures { result ≡ leb (length (names_of known.now.known)) room }
{
    match room_behind(&known.nodes, room) {
        Some(left) => room_behind(&known.links, left).is_some(),
        None => false,
    }
}

// The sheet and the names of what is known, if both fit.
fn put_known(known: &Knowledge<'_>, sheet: &mut [u8], names: &mut [u8]) -> Taken
    ensures { record { taken = result; sheet = sheet.new; names = names.new } ≡ put_of known.now.known sheet.old names.old }
{
    let bytes = sheet_length(known);
    if (sheet.len() < bytes) | !names_fit(known, names.len()) {
        return refused(5, 6);
    }
    put_sheet(known, sheet);
    let end = put_names(&known.nodes, names, 0);
    let size = put_names(&known.links, names, end);
    Taken {
        number: 0,
        place: 0,
        nodes: known.nodes.len(),
        links: known.links.len(),
        bytes,
        names: size,
    }
}

// The sheet of a text, and the names of its nodes and links.
pub fn from_text(text: &[u8], sheet: &mut [u8], names: &mut [u8]) -> Taken
    ensures { record { taken = result; sheet = sheet.new; names = names.new } ≡ from_text text.now sheet.old names.old }
{
    let mut nodes = [NamedLine::default(); 512];
    let mut links = [NamedLine::default(); 1024];
    let v = survey(text, &mut nodes, &mut links);
    match v.told {
        Ok(()) => put_known(&v.known, sheet, names),
        Err(at) => refused(u64::from(at.fault) as usize, at.line),
    }
}
