// What the first words of a line are together: the three names of a link, a key of two words.
#![tactic(auto)]

ghost use Rattle.std.specs.Prelude.{◌≡◌};
ghost use Rattle.first_words.specs.First.{names_good, pair_is};

use line_fields::{is_keyword, is_name};
use word_places::LineWords;

// A link's name and those of its two nodes.
#[tactic(auto, unfolding(crate::specs::First::names_good))]
pub fn names_good(words: &LineWords<'_>) -> bool
    ensures { result ≡ names_good words.now }
{
    is_name(words, 0) & is_name(words, 1) & is_name(words, 2)
}

// Whether the first two words are these.
#[tactic(auto, unfolding(crate::specs::First::pair_is))]
pub fn is_pair(words: &LineWords<'_>, first: &[u8], second: &[u8]) -> bool
    ensures { result ≡ pair_is words.now first.now second.now }
{
    is_keyword(words, 0, first) & is_keyword(words, 1, second)
}
