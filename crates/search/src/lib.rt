// The first number that a test holds of.
#![tactic(auto)]

ghost use Rattle.std.specs.Prelude.{◌≡◌, ℕ, Bool, ◌<◌};
ghost use Rattle.found.specs.Searches.{first_of};

// The first number below n that the test holds of. It is tested of no other number.
pub fn first_where<F: Fn(usize) -> bool>(n: usize, test: F) -> Option<usize>
    requires { (i : ℕ) → i < n → F.pre test i }
    ensures { (t : ℕ → Bool) → ((i : ℕ) (b : Bool) → i < n → F.post test i b → b ≡ t i) → result ≡ first_of t n }
{
    for i in 0..n {
        if test(i) {
            return Some(i);
        }
    }
    None
}
