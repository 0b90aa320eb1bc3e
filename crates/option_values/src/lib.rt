// What an option may be set to, besides a number: a flow unit and a count.
#![tactic(auto)]

ghost use Rattle.std.specs.Prelude.{◌≡◌};
ghost use Rattle.option_values.specs.Values.{unit_of, count_of};

use decimal_words::{all_digits, value_from};
use spelled::spells;

// The code of a flow unit.
#[tactic(auto, unfolding(crate::specs::Values::unit_of, crate::specs::Values::flow_units, line_fields::specs::Fields::first_of, spelled::specs::Texts::bytes_of))]
pub fn unit_of(word: &[u8]) -> Option<usize>
    ensures { result ≡ unit_of word.now }
{
    if spells(word, b"CFS") {
        Some(0)
    } else if spells(word, b"GPM") {
        Some(1)
    } else if spells(word, b"MGD") {
        Some(2)
    } else if spells(word, b"IMGD") {
        Some(3)
    } else if spells(word, b"AFD") {
        Some(4)
    } else if spells(word, b"LPS") {
        Some(5)
    } else if spells(word, b"LPM") {
        Some(6)
    } else if spells(word, b"MLD") {
        Some(7)
    } else if spells(word, b"CMS") {
        Some(8)
    } else if spells(word, b"CMH") {
        Some(9)
    } else if spells(word, b"CMD") {
        Some(10)
    } else {
        None
    }
}

// A count in digits alone, up to 65535.
#[tactic(auto, unfolding(crate::specs::Values::count_of, crate::specs::Values::is_count))]
pub fn count_of(word: &[u8]) -> Option<usize>
    ensures { result ≡ count_of word.now }
{
    // a long word is refused unread
    if 17 < word.len() {
        return None;
    }
    let few = all_digits(word) & (0 < word.len());
    if !few {
        return None;
    }
    let count = value_from(0, word);
    if 65535 < count {
        return None;
    }
    Some(count as usize)
}
