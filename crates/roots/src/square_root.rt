// The square root of an f64, from bits.
ghost use Rattle.std.specs.Prelude.{◌≡◌, cond, ℕ, ◌+◌, ◌-◌, ◌*◌, ◌/◌, ◌^◌, ◌≤◌, ◌<◌};
ghost use Rattle.roots.specs.Root.{whole_root, root_bits, root_of};

// a - b in two's complement.
fn minus(a: u64, b: u64) -> u64
    ensures { (b ≤ a → result + b ≡ a) × (a < b → result + b ≡ a + 2 ^ 64) }
{
    if b <= a {
        a - b
    } else {
        a + (u64::MAX - b) + 1
    }
}

// Both are at hand before the test, so that the compiler makes a select of it and no jump.
fn chosen(first: bool, a: u64, b: u64) -> u64
    ensures { result ≡ cond {A = ℕ} first a b }
{
    if first { a } else { b }
}

// The whole number nearest to the root of n * 2^52, from the digits of the root of n * 2^54, with no
// product and nothing restored. A candidate p goes up or down by half of w, whichever way the root lies,
// and w is halved: x is 2 * (n * 2^54 - p * p) / w in two's complement, q is 4 times the next candidate,
// and v is what that one takes off the doubled x. The last candidate is odd, so the sign of x rounds.
// The doubled x and v have one sign, so a plain comparison tells the sign of their difference, and the
// compiler makes one instruction of the two. The sums q + half and q + w are kept for after the loop,
// where either will do, and `zero`, which is 0, hides the number of turns: else the compiler puts the
// selects before the sums, an instruction more on the way from digit to digit.
fn nearest_root(n: u64) -> u64
    requires { (2 ^ 52 ≤ n) × (n < 2 ^ 54) }
    ensures { result ≡ (whole_root (n * 2 ^ 54) + 1) / 2 }
{
    let zero = n >> 60;
    let mut x = (n << 2) - 0x40_0000_0000_0000;
    let mut w: u64 = 0x20_0000_0000_0000;
    let mut q: u64 = 0xc0_0000_0000_0000;
    let mut v: u64 = 0xa0_0000_0000_0000;
    let mut last = v;
    let mut most = q;
    while zero + 1 < w {
        let d = x << 1;
        let down = d < v;
        x = minus(d, v);
        let half = w >> 1;
        last = q + half;
        v = chosen(down, minus(half, q), last);
        most = q + w;
        q = chosen(down, q - w, most);
        w = half;
    }
    if x < 0x8000_0000_0000_0000 {
        last / 8 + 1
    } else {
        most / 8
    }
}

// The pattern of the root of a pattern, from the root of its significand, moved up to 53 digits, and by
// one more where its exponent is odd. A normal number's has 53 already, and does not wait for them to be
// counted.
fn root_bits(p: u64) -> u64
    requires { (0 < p) × (p < 2047 * 2 ^ 52) }
    ensures { result ≡ root_bits p }
{
    let mut e = p / 0x10_0000_0000_0000 + 51;
    let mut m = p % 0x10_0000_0000_0000 + 0x10_0000_0000_0000;
    if p < 0x10_0000_0000_0000 {
        let s = u64::leading_zeros(p) as u64 - 11;
        e = 52 - s;
        m = p << s;
    }
    ((e / 2 + 485) << 52) + nearest_root(m << (e % 2))
}

pub fn root(x: f64) -> f64
    ensures { result ≡ root_of x }
{
    if x != x {
        return x;
    }
    let p = f64::to_bits(x);
    if p % 0x8000_0000_0000_0000 == 0 {
        return x;
    }
    if p > 0x8000_0000_0000_0000 {
        return 0.0 / 0.0;
    }
    if p >= 0x7ff0_0000_0000_0000 {
        return x;
    }
    f64::from_bits(root_bits(p))
}
