// A figure of a line in feet.
ghost use Rattle.std.specs.Prelude.{◌≡◌, ◌<◌};
ghost use Rattle.text_records.specs.Figures.{feet_at, diameter_at};

use line_fields::number_at;
use text_units::{Units, diameter_feet, feet};
use word_places::LineWords;

// Word k, an elevation, a head, a level or a length.
#[tactic(auto, unfolding(crate::specs::Figures::feet_at))]
pub fn feet_at(words: &LineWords<'_>, k: usize, u: Units) -> f64
    requires { k < 10 }
    ensures { result ≡ feet_at u words.now k }
{
    feet(u, number_at(words, k))
}

// Word k, a diameter.
#[tactic(auto, unfolding(crate::specs::Figures::diameter_at))]
pub fn diameter_at(words: &LineWords<'_>, k: usize, u: Units) -> f64
    requires { k < 10 }
    ensures { result ≡ diameter_at u words.now k }
{
    diameter_feet(u, number_at(words, k))
}
