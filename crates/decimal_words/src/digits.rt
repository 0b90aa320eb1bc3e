// Signs, digits, and where a point or the mark of an exponent stands.
ghost use Rattle.std.specs.Prelude.{◌≡◌, true, suc, ◌≤◌, min, length, drop};
ghost use Rattle.lines.specs.Lines.{stretch};
ghost use Rattle.decimal_words.specs.Numbers.{is_point, is_mark, sign_length, negated, all_digits, value_from};
ghost use Rattle.decimal_words.specs.Room.{Room};

// What stands behind the byte at k, which is nothing at the end.
pub fn bytes_behind(s: &[u8], k: usize) -> &[u8]
    requires { k ≤ length s.now }
    ensures { result.now ≡ drop (suc k) s.now }
{
    if k < s.len() {
        return &s[k + 1..];
    }
    &s[k..]
}

// 1 where a sign stands first, else 0.
#[tactic(auto, unfolding(crate::specs::Numbers::sign_length))]
pub fn sign_length(s: &[u8]) -> usize
    ensures value { result ≡ sign_length s.now }
    ensures within { result ≤ length s.now }
{
    match s {
        [b'+' | b'-', ..] => 1,
        _ => 0,
    }
}

#[tactic(auto, unfolding(crate::specs::Numbers::negated))]
pub fn is_negated(s: &[u8]) -> bool
    ensures { result ≡ negated s.now }
{
    matches!(s, [b'-', ..])
}

// How many bytes stand before the first point.
pub fn before_point(s: &[u8]) -> usize
    ensures { (result ≡ stretch is_point s.now) × (result ≤ length s.now) }
{
    s.iter().position(|c| *c == b'.').unwrap_or(s.len())
}

// How many bytes stand before the first E or e.
pub fn before_mark(s: &[u8]) -> usize
    ensures { (result ≡ stretch is_mark s.now) × (result ≤ length s.now) }
{
    s.iter()
        .position(|c| (*c == b'E') | (*c == b'e'))
        .unwrap_or(s.len())
}

pub fn all_digits(s: &[u8]) -> bool
    ensures { result ≡ all_digits s.now }
{
    s.iter().all(|c| c.is_ascii_digit())
}

// The number of these digits, behind those whose number is `before`.
pub fn value_from(before: u64, s: &[u8]) -> u64
    requires { (all_digits s.now ≡ true) × Room before (length s.now) }
    ensures { result ≡ value_from before s.now }
{
    let mut v = before;
    for c in s {
        v = v * 10 + (*c - b'0') as u64;
    }
    v
}

// The number of these digits, or 21 where it is larger.
pub fn small_value(s: &[u8]) -> u64
    requires { all_digits s.now ≡ true }
    ensures { result ≡ min 21 (value_from 0 s.now) }
{
    let mut v: u64 = 0;
    for c in s {
        v = (v * 10 + (*c - b'0') as u64).min(21);
    }
    v
}
