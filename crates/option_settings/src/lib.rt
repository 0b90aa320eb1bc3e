// What a line of OPTIONS sets.
#![tactic(auto)]

ghost use Rattle.std.specs.Prelude.{◌≡◌};
ghost use Rattle.option_settings.specs.After.{unit_after, trials_after, number_after, pair_after, model_after, with_option};

use first_words::is_pair;
use line_fields::{is_keyword, number_at};
use option_values::{count_of, unit_of};
use text_settings::Settings;
use word_places::LineWords;

// The flow unit after a line, where it was `before`, and 11 for a word that is none. So with the others below.
#[tactic(auto, unfolding(crate::specs::After::unit_after, spelled::specs::Texts::bytes_of))]
fn unit_after(words: &LineWords<'_>, before: usize) -> usize
    ensures { result ≡ unit_after words.now before }
{
    if is_keyword(words, 0, b"UNITS") {
        return unit_of(words.word(1)).unwrap_or(11);
    }
    before
}

// The trials after a line, and 65536 for a word that is no count.
#[tactic(auto, unfolding(crate::specs::After::trials_after, spelled::specs::Texts::bytes_of))]
fn trials_after(words: &LineWords<'_>, before: usize) -> usize
    ensures { result ≡ trials_after words.now before }
{
    if is_keyword(words, 0, b"TRIALS") {
        return count_of(words.word(1)).unwrap_or(65536);
    }
    before
}

// The number of a key of one word after a line.
#[tactic(auto, unfolding(crate::specs::After::number_after))]
fn number_after(words: &LineWords<'_>, key: &[u8], before: f64) -> f64
    ensures { result ≡ number_after words.now key.now before }
{
    if is_keyword(words, 0, key) {
        return number_at(words, 1);
    }
    before
}

// The number of a key of two words after a line.
#[tactic(auto, unfolding(crate::specs::After::pair_after))]
fn pair_after(words: &LineWords<'_>, first: &[u8], second: &[u8], before: f64) -> f64
    ensures { result ≡ pair_after words.now first.now second.now before }
{
    if is_pair(words, first, second) {
        return number_at(words, 2);
    }
    before
}

// Whether demands give way to pressure after a line.
#[tactic(auto, unfolding(crate::specs::After::model_after, spelled::specs::Texts::bytes_of))]
fn model_after(words: &LineWords<'_>, before: bool) -> bool
    ensures { result ≡ model_after words.now before }
{
    if is_pair(words, b"DEMAND", b"MODEL") {
        return is_keyword(words, 2, b"PDA");
    }
    before
}

// The settings once a line of OPTIONS is read.
#[tactic(auto, unfolding(crate::specs::After::with_option, spelled::specs::Texts::bytes_of))]
pub fn with_option(words: &LineWords<'_>, o: Settings) -> Settings
    ensures { result ≡ with_option words.now o }
{
    Settings {
        unit: unit_after(words, o.unit),
        trials: trials_after(words, o.trials),
        accuracy: number_after(words, b"ACCURACY", o.accuracy),
        damping: number_after(words, b"DAMPLIMIT", o.damping),
        change: number_after(words, b"FLOWCHANGE", o.change),
        multiplier: pair_after(words, b"DEMAND", b"MULTIPLIER", o.multiplier),
        bends: model_after(words, o.bends),
        minimum: pair_after(words, b"MINIMUM", b"PRESSURE", o.minimum),
        required: pair_after(words, b"REQUIRED", b"PRESSURE", o.required),
    }
}
