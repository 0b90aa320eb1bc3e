// Forward and back substitution with a factor L.
ghost use Rattle.std.specs.Prelude.{true, ◌≡◌, ℕ, suc, ◌-◌, ◌<◌, ◌≤◌, T, length, get_or};
ghost use Rattle.std.specs.Float.{nan};
ghost use Rattle.std.specs.Float.Ieee.Scale.{finite};
ghost use Rattle.zeros.specs.Zeros.{Firm};
ghost use Rattle.substitution.specs.Substitution.{less_term, after, solved};

use zeros::{endless, minus_zero};

// Subtracts from each row of x after k the term of unknown k. Called as each unknown becomes known,
// it takes every row's terms in ascending order and runs down a column, as `subtract` does.
fn subtract_term(l: &[f64], n: usize, k: usize, x: &mut [f64])
    requires { (length l.now ≡ 4096) × ((k < n) × ((n ≤ 64) × (n ≤ length x.old))) }
    ensures { x.new ≡ less_term l.now k (n - suc k) x.old }
{
    let y = x[k];
    for r in k + 1..n {
        x[r] = x[r] - l[64 * k + r] * y;
    }
}

// The right side at row r less the terms of the unknowns after r, ascending. Each term waits for
// the one before, and most factors are zero: where that changes nothing such a term, which would
// take a zero away, is left out.
fn less_after(l: &[f64], x: &[f64], r: usize, n: usize, skip: bool) -> f64
    requires l_len { (length l.now ≡ 4096) × ((r < n) × ((n ≤ 64) × (n ≤ length x.now))) }
    requires firm { skip ≡ true → Firm (get_or x.now r nan) × ((k : ℕ) → r < k → k < n → T (finite (get_or x.now k nan))) }
    ensures { result ≡ after l.now x.now r (n - suc r) }
{
    let mut s = x[r];
    for k in r + 1..n {
        let f = l[64 * r + k];
        if !skip || f != 0.0 {
            s = s - f * x[k];
        }
    }
    s
}

// Writes over x the y of L L^T y = x: forward from the first unknown on, then back from the last.
pub fn substitute(l: &[f64], n: usize, x: &mut [f64])
    requires { (length l.now ≡ 4096) × ((n ≤ 64) × (n ≤ length x.old)) }
    ensures { x.new ≡ solved l.now n x.old }
{
    for k in 0..n {
        x[k] = x[k] / l[64 * k + k];
        subtract_term(l, n, k, x);
    }
    // the unknowns so far that are not finite
    let mut found: u64 = 0;
    for r in (0..n).rev() {
        let kept = found + minus_zero(x[r]);
        let skip = kept == 0;
        let y = less_after(l, x, r, n, skip) / l[64 * r + r];
        x[r] = y;
        found += endless(y);
    }
}
