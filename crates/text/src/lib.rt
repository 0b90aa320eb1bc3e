// The first lines of the listing: the answer and the record of the trials. Each function puts its
// text at a position of a lent buffer and gives the position after it. A line takes at most 128 bytes.
#![tactic(auto)]

ghost use Rattle.std.specs.Prelude.{◌≡◌, ◌+◌, ◌*◌, ◌≤◌, length};
ghost use Rattle.words.specs.Buffer.{placed};
ghost use Rattle.text.specs.Lines.{answer_line, record_lines};

use patterns::two_bytes;
use words::{put_byte, put_number};

pub fn answer_line(
    number: usize,
    place: usize,
    trials: usize,
    freed: usize,
    grounded: usize,
    out: &mut [u8],
    at: usize,
) -> usize
    requires { at + 128 ≤ length out.old }
    ensures text { out.new ≡ placed out.old at (answer_line number place trials freed grounded) }
    ensures end { result ≡ at + length (answer_line number place trials freed grounded) }
{
    let mut p = put_byte(b'A', out, at);
    p = put_number(number, out, p);
    p = put_number(place, out, p);
    p = put_number(trials, out, p);
    p = put_number(freed, out, p);
    p = put_number(grounded, out, p);
    put_byte(b'\n', out, p)
}

// The first `count` entries of the record, of four bytes each.
pub fn record_lines(entries: &[u8], count: usize, out: &mut [u8], at: usize) -> usize
    requires { (4 * count ≤ length entries.now) × (at + 128 * count ≤ length out.old) }
    ensures text { out.new ≡ placed out.old at (record_lines entries.now count) }
    ensures end { result ≡ at + length (record_lines entries.now count) }
{
    let mut p = at;
    for i in 0..count {
        p = put_byte(b'T', out, p);
        p = put_byte(b' ', out, p);
        p = put_byte(entries[4 * i], out, p);
        p = put_byte(entries[4 * i + 1], out, p);
        p = put_number(two_bytes(entries, 4 * i + 2) as usize, out, p);
        p = put_byte(b'\n', out, p);
    }
    p
}
