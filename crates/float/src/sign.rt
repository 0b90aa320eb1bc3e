// Magnitude and sign.
ghost use Rattle.std.specs.Prelude.{◌≡◌};
ghost use Rattle.float.specs.Sign.{abs_of, signum_of};

// x without its sign.
pub fn abs(x: f64) -> f64
    ensures { result ≡ abs_of x }
{
    if x < 0.0 {
        return -x;
    }
    // -0.0 is not below zero
    if x == 0.0 {
        return 0.0;
    }
    x
}

// 1 with the sign of x: -1 for -0.0, and NaN for NaN.
pub fn signum(x: f64) -> f64
    ensures { result ≡ signum_of x }
{
    if x != x {
        return x;
    }
    if f64::to_bits(x) < 0x8000_0000_0000_0000 {
        1.0
    } else {
        -1.0
    }
}
