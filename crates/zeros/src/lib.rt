// The f64s with which a zero cannot be left out: one less a zero is as it was, unless it is -0.0, and one times a zero
// is a zero, unless it is an infinity or a NaN. Each is told by a count, so that the compiler makes vectors of the loop
// that adds them up.
#![tactic(auto)]

ghost use Rattle.std.specs.Prelude.{◌≡◌};
ghost use Rattle.zeros.specs.Zeros.{minus_zero_of, endless_of};

// 1 for -0.0, and 0 for any other f64.
pub fn minus_zero(x: f64) -> u64
    ensures { result ≡ minus_zero_of x }
{
    if x == 0.0 {
        return f64::to_bits(x) / 0x8000_0000_0000_0000;
    }
    0
}

// 1 for an infinity and a NaN, and 0 for any other f64.
pub fn endless(x: f64) -> u64
    ensures { result ≡ endless_of x }
{
    if x - x != 0.0 {
        return 1;
    }
    0
}
