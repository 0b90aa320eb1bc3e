// The pattern of a fraction of two wide numbers.
ghost use Rattle.std.specs.Prelude.{◌≡◌, ℕ, ◌+◌, ◌-◌, ◌*◌, ◌^◌, ◌<◌, ◌≤◌, max};
ghost use Rattle.std.specs.Float.Ieee.Nearest.{closest};
ghost use Rattle.decimals.specs.Wide.{value};
ghost use Rattle.decimals.specs.Parts.{Divided, PatternOf};

use crate::wide::{Wide, digit_of};

#[derive(Clone, Copy)]
pub struct Raised {
    pub wide: Wide,
    pub by: u64,
}

// a, doubled until it is above b
fn raise(a: Wide, b: Wide) -> Raised
    requires { (a.low < 2 ^ 60) × (b.low < 2 ^ 60) × (0 < value a) × (value b < 2 ^ 112) }
    ensures { (result.wide.low < 2 ^ 60) × (value result.wide ≡ value a * 2 ^ result.by) × (value b < value result.wide) × (value result.wide ≤ max (value a) (2 * value b)) × (result.by < 120) }
{
    let mut w = a;
    let mut by: u64 = 0;
    while w.at_most(b) {
        w = w.times(2);
        by += 1;
    }
    Raised { wide: w, by }
}

// n * 2^53 / m, for an n below m: its whole part and what is left.
#[derive(Clone, Copy)]
pub struct Division {
    pub q: u64,
    pub rest: Wide,
}

fn short_division(n: u64, m: u64) -> Division
    requires { (n < m) × (m < 2 ^ 37) }
    ensures { (result.rest.low < 2 ^ 60) × Divided n m (value result.rest) result.q }
{
    let first = n * 0x400_0000;
    let second = first % m * 0x800_0000;
    let rest = Wide {
        high: 0,
        low: second % m,
    };
    Division {
        q: first / m * 0x800_0000 + second / m,
        rest,
    }
}

fn long_division(n: Wide, m: Wide) -> Division
    requires { (n.low < 2 ^ 60) × (m.low < 2 ^ 60) × (value n < value m) × (value m < 2 ^ 116) }
    ensures { (result.rest.low < 2 ^ 60) × Divided (value n) (value m) (value result.rest) result.q }
{
    let mut rest = n;
    let mut q: u64 = 0;
    for _ in 0..53u64 {
        let next = digit_of(rest.times(2), m);
        rest = next.rest;
        q = q * 2 + next.digit;
    }
    Division { q, rest }
}

fn divide(n: Wide, m: Wide) -> Division
    requires { (n.low < 2 ^ 60) × (m.low < 2 ^ 60) × (value n < value m) × (value m < 2 ^ 116) }
    ensures { (result.rest.low < 2 ^ 60) × Divided (value n) (value m) (value result.rest) result.q }
{
    if m.high == 0 {
        if m.low < 0x20_0000_0000 {
            return short_division(n.low, m.low);
        }
    }
    long_division(n, m)
}

// The whole number nearest to n * 2^53 / m, the even one of two.
fn quotient(n: Wide, m: Wide) -> u64
    requires { (n.low < 2 ^ 60) × (m.low < 2 ^ 60) × (value n < value m) × (value m < 2 ^ 116) }
    ensures { (result ≡ closest (value n * 2 ^ 53) (value m)) × (result ≤ 2 ^ 53) }
{
    let d = divide(n, m);
    let t = d.rest.times(2);
    if m.at_most(t) {
        if t.at_most(m) {
            return d.q + d.q % 2;
        }
        return d.q + 1;
    }
    d.q
}

// The pattern of num / den * 2^(base - 1021).
pub fn ratio(num: Wide, den: Wide, base: u64) -> u64
    requires { (num.low < 2 ^ 60) × (den.low < 2 ^ 60) × (0 < value num) × (0 < value den) × (value num < 2 ^ 110) × (value den < 2 ^ 110) × (200 ≤ base) × (base < 1500) }
    ensures { PatternOf (value num) (value den) base result }
{
    let n = raise(num, den);
    let m = raise(den, n.wide);
    let up = m.by;
    let down = n.by;
    (base + up - down) * 0x10_0000_0000_0000 + quotient(n.wide, m.wide)
}
