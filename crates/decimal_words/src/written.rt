// A word as the number that it spells.
ghost use Rattle.std.specs.Prelude.{◌≡◌, ◌≤◌};
ghost use Rattle.decimal_words.specs.Numbers.{mantissa_of, exponent_of, exponent_in, joined_of, written_of, Ranged, worth_of};

use crate::digits::{
    all_digits, before_mark, before_point, bytes_behind, is_negated, sign_length, small_value,
    value_from,
};

// The number that a word spells: digits times ten to `size`, or divided by it where `negative`; below zero where `minus`.
#[derive(Clone, Copy)]
pub struct Written {
    pub minus: bool,
    pub digits: u64,
    pub negative: bool,
    pub size: u64,
}

// The digits before the exponent as one number, and how many stand behind the point.
#[derive(Clone, Copy)]
pub struct Mantissa {
    pub digits: u64,
    pub places: u64,
}

#[derive(Clone, Copy)]
pub struct Exponent {
    pub negative: bool,
    pub size: u64,
}

fn read_mantissa(m: &[u8]) -> Option<Mantissa>
    ensures { result ≡ mantissa_of m.now }
{
    let point = before_point(m);
    let whole = &m[..point];
    let part = bytes_behind(m, point);
    let count = point + part.len();
    // a long word is refused unread
    if 17 < count {
        return None;
    }
    let few = all_digits(whole) & all_digits(part) & (0 < count);
    if !few {
        return None;
    }
    Some(Mantissa {
        digits: value_from(value_from(0, whole), part),
        places: part.len() as u64,
    })
}

fn read_exponent(e: &[u8]) -> Option<Exponent>
    ensures { result ≡ exponent_of e.now }
{
    let x = &e[sign_length(e)..];
    let some = all_digits(x) & (0 < x.len());
    if !some {
        return None;
    }
    let size = small_value(x);
    if size > 20 {
        return None;
    }
    Some(Exponent {
        negative: is_negated(e),
        size,
    })
}

// The exponent behind the first E or e; 0 where there is none.
fn exponent_in(u: &[u8]) -> Option<Exponent>
    ensures { result ≡ exponent_in u.now }
{
    let mark = before_mark(u);
    if mark < u.len() {
        return read_exponent(bytes_behind(u, mark));
    }
    Some(Exponent {
        negative: false,
        size: 0,
    })
}

#[tactic(auto, unfolding(crate::specs::Numbers::joined_of))]
fn joined(minus: bool, m: Mantissa, x: Exponent) -> Written
    requires { (m.places ≤ 17) × (x.size ≤ 20) }
    ensures { result ≡ joined_of minus m x }
{
    let digits = m.digits;
    if x.negative {
        return Written {
            minus,
            digits,
            negative: true,
            size: x.size + m.places,
        };
    }
    if m.places <= x.size {
        return Written {
            minus,
            digits,
            negative: false,
            size: x.size - m.places,
        };
    }
    Written {
        minus,
        digits,
        negative: true,
        size: m.places - x.size,
    }
}

// The number that a word spells.
pub fn spelled_number(word: &[u8]) -> Option<Written>
    ensures { result ≡ written_of word.now }
{
    let u = &word[sign_length(word)..];
    let m = read_mantissa(&u[..before_mark(u)])?;
    let x = exponent_in(u)?;
    Some(joined(is_negated(word), m, x))
}

// Its f64.
#[tactic(auto, unfolding(crate::specs::Numbers::worth_of))]
pub fn worth(w: Written) -> f64
    requires { Ranged w }
    ensures { result ≡ worth_of w }
{
    let x = decimals::decimal(w.digits, w.negative, w.size);
    if w.minus {
        return -x;
    }
    x
}
