// Whole powers, by halving.
ghost use Rattle.std.specs.Prelude.{◌≡◌};
ghost use Rattle.float.specs.WholePower.{whole_power};

// x to the n: the square of x to the n / 2, times x where n is odd. 0 gives 1, 1 gives x.
pub fn whole_power(x: f64, n: u32) -> f64
    ensures { result ≡ whole_power x n }
{
    if n == 0 {
        return 1.0;
    }
    if n == 1 {
        return x;
    }
    let half = whole_power(x, n / 2);
    if n % 2 == 0 {
        half * half
    } else {
        half * half * x
    }
}
