// Crates linear and substitution as C calls them, for bench/linear alone: bench/linear.c lends
// 4,096 numbers.
#![tactic(auto)]

ghost use Rattle.std.specs.Prelude.{◌≡◌, ◌≤◌, length};
ghost use Rattle.linear.specs.Factorization.{factor_of};
ghost use Rattle.substitution.specs.Substitution.{solved};
ghost use Rattle.linear_bench.specs.Passed.{passed};

// How many columns were passed: n where the factorization went through.
#[unsafe(no_mangle)]
pub extern "C" fn linear_bench_factor(a: &mut [f64], n: usize) -> usize
    requires { (length a.old ≡ 4096) × (n ≤ 64) }
    ensures matrix { a.new ≡ (factor_of n a.old).matrix }
    ensures answer { result ≡ passed n (factor_of n a.old).answer }
{
    match linear::factor(a, n) {
        Ok(()) => n,
        Err(c) => c.0,
    }
}

#[unsafe(no_mangle)]
pub extern "C" fn linear_bench_substitute(l: &[f64], n: usize, x: &mut [f64])
    requires { (length l.now ≡ 4096) × ((n ≤ 64) × (n ≤ length x.old)) }
    ensures { x.new ≡ solved l.now n x.old }
{
    substitution::substitute(l, n, x);
}
