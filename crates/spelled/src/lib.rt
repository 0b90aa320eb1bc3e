// Whether a word is a keyword, in capitals or not, and whether two words are the same.
#![tactic(auto)]

ghost use Rattle.std.specs.Prelude.{◌≡◌};
ghost use Rattle.spelled.specs.Spelled.{capital_of, spelled_as, same_bytes};

// A byte, with `a` to `z` in capitals.
#[tactic(auto, unfolding(crate::specs::Spelled::capital_of))]
fn capital(c: u8) -> u8
    ensures { result ≡ capital_of c }
{
    if c.is_ascii_lowercase() { c - 32 } else { c }
}

// Whether a word is the keyword, which is given in capitals.
pub fn spells(word: &[u8], keyword: &[u8]) -> bool
    ensures { result ≡ spelled_as word.now keyword.now }
{
    if word.len() != keyword.len() {
        return false;
    }
    for i in 0..word.len() {
        if capital(word[i]) != keyword[i] {
            return false;
        }
    }
    true
}

// Whether two words have the same bytes.
pub fn same_bytes(word: &[u8], other: &[u8]) -> bool
    ensures { result ≡ same_bytes word.now other.now }
{
    word == other
}
