// A column filled entry by entry, each entry given by its number.
#![tactic(auto)]

ghost use Rattle.std.specs.Prelude.{◌≡◌, ℕ, ◌<◌, ◌≤◌, length};
ghost use Rattle.fills.specs.Fills.{filled};

// Fills the first n entries of a column; the rest stays.
pub fn fill_with<T: Copy, F: Fn(usize) -> T>(column: &mut [T], n: usize, value: F)
    requires fits { n ≤ length column.old }
    requires callable { (i : ℕ) → i < n → F.pre value i }
    ensures { (f : ℕ → T) → ((i : ℕ) (v : T) → i < n → F.post value i v → v ≡ f i) → column.new ≡ filled f n column.old }
{
    for i in 0..n {
        column[i] = value(i);
    }
}
