// Numbers as digits: decimal, and the sixteen hexadecimal digits of a pattern.
ghost use Rattle.std.specs.Prelude.{◌≡◌, ◌+◌, ◌≤◌, ◌<◌, length};
ghost use Rattle.words.specs.Buffer.{Put};
ghost use Rattle.words.specs.Digits.{decimal_of, hex_digit, hex_of};

pub fn put_decimal(n: usize, out: &mut [u8], at: usize) -> usize
    requires { at + length (decimal_of n) ≤ length out.old }
    ensures { Put out.old at (decimal_of n) out.new result }
{
    if n < 10 {
        out[at] = 48 + n as u8;
        return at + 1;
    }
    let last = put_decimal(n / 10, out, at);
    out[last] = 48 + (n % 10) as u8;
    last + 1
}

fn hex_digit(d: u64) -> u8
    requires { d < 16 }
    ensures { result ≡ hex_digit d }
{
    if d < 10 { 48 + d as u8 } else { 87 + d as u8 }
}

pub fn put_hex(n: u64, out: &mut [u8], at: usize) -> usize
    requires { at + 16 ≤ length out.old }
    ensures { Put out.old at (hex_of n) out.new result }
{
    let mut k: u64 = 16;
    let mut p = at;
    while 0 < k {
        k -= 1;
        out[p] = hex_digit((n >> (4 * k)) % 16);
        p += 1;
    }
    p
}
