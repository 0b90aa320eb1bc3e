// An f64 from its bytes, and its bit pattern.
#![tactic(auto)]

ghost use Rattle.std.specs.Prelude.{◌≡◌, ◌+◌, ◌^◌, ◌<◌, ◌≤◌, length};
ghost use Rattle.std.specs.Float.{binary64};
ghost use Rattle.std.specs.Float.Ieee.{to_bits};
ghost use Rattle.patterns.specs.Bytes.{little_endian, from_bytes};

// One byte as a number; the next three are the numbers of two, four and eight bytes from `at` on, the lowest byte first.
fn byte(s: &[u8], at: usize) -> u64
    requires { at < length s.now }
    ensures { (result ≡ little_endian 1 s.now at) × (result < 2 ^ 8) }
{
    s[at] as u64
}

pub fn two_bytes(s: &[u8], at: usize) -> u64
    requires { at + 2 ≤ length s.now }
    ensures { (result ≡ little_endian 2 s.now at) × (result < 2 ^ 16) }
{
    byte(s, at) + byte(s, at + 1) * 0x100
}

fn four_bytes(s: &[u8], at: usize) -> u64
    requires { at + 4 ≤ length s.now }
    ensures { (result ≡ little_endian 4 s.now at) × (result < 2 ^ 32) }
{
    two_bytes(s, at) + two_bytes(s, at + 2) * 0x1_0000
}

fn eight_bytes(s: &[u8], at: usize) -> u64
    requires { at + 8 ≤ length s.now }
    ensures { result ≡ little_endian 8 s.now at }
{
    four_bytes(s, at) + four_bytes(s, at + 4) * 0x1_0000_0000
}

// The f64 whose pattern the eight bytes from `at` on are; NaN for any pattern of a NaN.
pub fn from_bytes(s: &[u8], at: usize) -> f64
    requires { at + 8 ≤ length s.now }
    ensures { result ≡ from_bytes s.now at }
{
    let p = eight_bytes(s, at);
    if p % 0x8000_0000_0000_0000 > 0x7ff0_0000_0000_0000 {
        return 0.0 / 0.0;
    }
    f64::from_bits(p)
}

// The bit pattern of x. All NaNs count as equal and have the one pattern 7ff8000000000000.
pub fn pattern(x: f64) -> u64
    ensures { result ≡ to_bits binary64 x }
{
    if x != x {
        return 0x7ff8_0000_0000_0000;
    }
    f64::to_bits(x)
}
