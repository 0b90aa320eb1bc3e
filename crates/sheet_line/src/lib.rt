// The line before a sheet that was made of a text: how many nodes and links it has, and how many bytes.
#![tactic(auto)]

ghost use Rattle.std.specs.Prelude.{◌≡◌, ◌+◌, ◌≤◌, length};
ghost use Rattle.words.specs.Buffer.{placed};
ghost use Rattle.sheet_line.specs.Line.{sheet_line};

use words::{put_byte, put_number};

// Puts the line at a position of a lent buffer, and gives the position after it.
pub fn sheet_line(nodes: usize, links: usize, bytes: usize, out: &mut [u8], at: usize) -> usize
    requires { at + 128 ≤ length out.old }
    ensures text { out.new ≡ placed out.old at (sheet_line nodes links bytes) }
    ensures end { result ≡ at + length (sheet_line nodes links bytes) }
    ensures few { result ≤ at + 65 }
{
    let mut p = put_byte(b'S', out, at);
    p = put_number(nodes, out, p);
    p = put_number(links, out, p);
    p = put_number(bytes, out, p);
    put_byte(b'\n', out, p)
}
