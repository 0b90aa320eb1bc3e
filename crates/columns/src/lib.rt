// Sums kept in a column of floats, a column set to +0.0, and the start of a column copied.
#![tactic(auto)]

ghost use Rattle.std.specs.Prelude.{◌≡◌, ◌<◌, ◌≤◌, length};
ghost use Rattle.columns.specs.Columns.{cleared, add_to, take_from, copied};

// Sets the first entries to +0.0.
pub fn clear(count: usize, x: &mut [f64])
    requires { count ≤ length x.old }
    ensures { x.new ≡ cleared count x.old }
{
    x[..count].fill(0.0);
}

pub fn add_to(x: &mut [f64], at: usize, value: f64)
    requires { at < length x.old }
    ensures { x.new ≡ add_to x.old at value }
{
    x[at] = x[at] + value;
}

pub fn take_from(x: &mut [f64], at: usize, value: f64)
    requires { at < length x.old }
    ensures { x.new ≡ take_from x.old at value }
{
    x[at] = x[at] - value;
}

// Copies the first n entries; the rest stays.
pub fn copy_first<T: Copy>(to: &mut [T], from: &[T], n: usize)
    requires { (n ≤ length to.old) × (n ≤ length from.now) }
    ensures { to.new ≡ copied n from.now to.old }
{
    for i in 0..n {
        to[i] = from[i];
    }
}
