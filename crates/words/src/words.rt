// The words of a line: one byte, or a space and then a number in decimal or the pattern of a float.
ghost use Rattle.std.specs.Prelude.{◌≡◌, [], ◌∷◌, ◌+◌, ◌<◌, ◌≤◌, length};
ghost use Rattle.words.specs.Buffer.{Put};
ghost use Rattle.words.specs.Words.{number_word, float_word};

use crate::digits::{put_decimal, put_hex};
use patterns::pattern;

pub fn put_byte(b: u8, out: &mut [u8], at: usize) -> usize
    requires { at < length out.old }
    ensures put { Put out.old at (b ∷ []) out.new result }
    ensures value { result ≡ at + 1 }
{
    out[at] = b;
    at + 1
}

pub fn put_number(n: usize, out: &mut [u8], at: usize) -> usize
    requires { at + 21 ≤ length out.old }
    ensures put { Put out.old at (number_word n) out.new result }
    ensures upper_bound { result ≤ at + 21 }
{
    out[at] = b' ';
    put_decimal(n, out, at + 1)
}

pub fn put_float(x: f64, out: &mut [u8], at: usize) -> usize
    requires { at + 17 ≤ length out.old }
    ensures put { Put out.old at (float_word x) out.new result }
    ensures upper_bound { result ≤ at + 17 }
{
    out[at] = b' ';
    put_hex(pattern(x), out, at + 1)
}
