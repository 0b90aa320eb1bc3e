// The trial record: an entry a trial, four bytes each.
#![tactic(auto)]

ghost use Rattle.std.specs.Prelude.{◌≡◌, ◌+◌, ◌*◌, ◌<◌, ◌≤◌, length};
ghost use Rattle.marks.specs.Marks.{mark_of, put_of};

use causes::flip_number;
use entries::Entry;

// Two letters and a number.
#[derive(Clone, Copy)]
pub struct Mark {
    pub first: u8,
    pub second: u8,
    pub number: usize,
}

// The mark and the number of an entry.
#[tactic(auto, unfolding(crate::specs::Marks::mark_of))]
pub fn marked(e: Entry) -> Mark
    ensures { result ≡ mark_of e }
{
    let (first, second, number) = match e {
        Entry::Freed(i) => (b'V', b'F', i.0),
        Entry::Grounded(i) => (b'G', b'N', i.0),
        Entry::Singular(i) => (b'S', b'G', i.0),
        Entry::Wild(p) => (b'N', b'F', p),
        Entry::Stepped(_, flip) => (b'S', b'T', flip_number(flip)),
        Entry::Converged(flip) => (b'O', b'K', flip_number(flip)),
    };
    Mark {
        first,
        second,
        number,
    }
}

// Writes the ith entry: a mark and its number, the lower byte first.
pub fn put(entries: &mut [u8], i: usize, m: Mark)
    requires { (i < 65536) × (4 * i + 4 ≤ length entries.old) }
    ensures { entries.new ≡ put_of entries.old i m }
{
    entries[4 * i] = m.first;
    entries[4 * i + 1] = m.second;
    entries[4 * i + 2] = (m.number % 256) as u8;
    entries[4 * i + 3] = (m.number / 256 % 256) as u8;
}
