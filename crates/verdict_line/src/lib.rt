// The line before a listing that says whether it may be sold: the verdict's number and place.
#![tactic(auto)]

ghost use Rattle.std.specs.Prelude.{◌≡◌, ◌+◌, ◌≤◌, length};
ghost use Rattle.words.specs.Buffer.{placed};
ghost use Rattle.verdict_line.specs.Line.{verdict_line};

use words::{put_byte, put_number};

// Puts the line at a position of a lent buffer, and gives the position after it.
pub fn verdict_line(number: usize, place: usize, out: &mut [u8], at: usize) -> usize
    requires { at + 64 ≤ length out.old }
    ensures text { out.new ≡ placed out.old at (verdict_line number place) }
    ensures end { result ≡ at + length (verdict_line number place) }
    ensures few { result ≤ at + 44 }
{
    let mut p = put_byte(b'V', out, at);
    p = put_number(number, out, p);
    p = put_number(place, out, p);
    put_byte(b'\n', out, p)
}
