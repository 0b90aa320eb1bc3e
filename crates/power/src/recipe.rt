// A power of x from the bits of x and the lent table of its exponent.
ghost use Rattle.std.specs.Prelude.{◌≡◌, ◌-◌, ◌*◌, ◌/◌, ◌^◌, ◌≤◌, ◌<◌, T};
ghost use Rattle.power.specs.Power.{power_by, power_of, power871};
ghost use Rattle.tables.specs.Entries.{nan_free};

use tables::{PowerTable, PowerTable871, entry_a, entry_b};

// The place in B of the binary exponent e of a pattern: e signed, negated, and offset by 63.
fn place(p: u64) -> usize
    requires { (959 * 2 ^ 52 ≤ p) × (p < 1087 * 2 ^ 52) }
    ensures { result ≡ 1086 - p / 2 ^ 52 }
{
    let e = (p / 0x10_0000_0000_0000) as i64 - 1023;
    (-e + 63) as usize
}

// The power of x, for every f64: 0 below 2^-64, infinity from 2^64, NaN for NaN and below zero.
fn power_by(x: f64, table: &[u64; 1153]) -> f64
    requires { T (nan_free table.now) }
    ensures { result ≡ power_by table.now x }
{
    if x != x {
        return x;
    }
    let p = f64::to_bits(x);
    // -0.0, and what is below it
    if p == 0x8000_0000_0000_0000 {
        return 0.0;
    }
    if p > 0x8000_0000_0000_0000 {
        return 0.0 / 0.0;
    }
    if p < 0x3bf0_0000_0000_0000 {
        return 0.0;
    }
    if p >= 0x43f0_0000_0000_0000 {
        return f64::from_bits(0x7ff0_0000_0000_0000);
    }
    // the steps of 1/1,024 in m, and the rest in units of 2^-42 of a step
    let i = (p / 0x400_0000_0000 % 1024) as usize;
    let low = entry_a(table, i);
    let high = entry_a(table, i + 1);
    let t = (p % 0x400_0000_0000) as f64 * 2.2737367544323206e-13;
    (low + t * (high - low)) * entry_b(table, place(p))
}

// x^0.852.
pub fn power(x: f64, table: &PowerTable) -> f64
    ensures { result ≡ power_of x }
{
    power_by(x, &table.entries)
}

// x^0.871.
pub fn power_871(x: f64, table: &PowerTable871) -> f64
    ensures { result ≡ power871 x }
{
    power_by(x, &table.entries)
}
