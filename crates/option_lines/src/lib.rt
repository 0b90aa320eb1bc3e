// The lines of OPTIONS: a key of one word or of two, and what each is refused with.
#![tactic(auto)]

ghost use Rattle.std.specs.Prelude.{◌≡◌, ◌<◌};
ghost use Rattle.option_lines.specs.Keys.{passed_key, number_key, number_pair, is_value, one_word_good, two_words_good, option_fault};

use first_words::is_pair;
use line_fields::{LineFault, fault, is_keyword, is_number, number_at};
use option_values::{count_of, unit_of};
use word_places::LineWords;

// Whether the key is one behind which anything may stand.
#[tactic(auto, unfolding(crate::specs::Keys::passed_key, spelled::specs::Texts::bytes_of))]
fn is_passed(words: &LineWords<'_>) -> bool
    ensures { result ≡ passed_key words.now }
{
    is_keyword(words, 0, b"UNBALANCED")
        | is_keyword(words, 0, b"QUALITY")
        | is_keyword(words, 0, b"MAP")
        | is_keyword(words, 0, b"HYDRAULICS")
}

// Whether the key is one of one word that takes a number.
#[tactic(auto, unfolding(crate::specs::Keys::number_key, spelled::specs::Texts::bytes_of))]
fn is_number_key(words: &LineWords<'_>) -> bool
    ensures { result ≡ number_key words.now }
{
    let kept = is_keyword(words, 0, b"ACCURACY")
        | is_keyword(words, 0, b"DAMPLIMIT")
        | is_keyword(words, 0, b"FLOWCHANGE");
    let passed = is_keyword(words, 0, b"VISCOSITY")
        | is_keyword(words, 0, b"DIFFUSIVITY")
        | is_keyword(words, 0, b"TOLERANCE")
        | is_keyword(words, 0, b"HEADERROR")
        | is_keyword(words, 0, b"CHECKFREQ")
        | is_keyword(words, 0, b"MAXCHECK");
    kept | passed
}

// Whether the key is one of two words that takes a number.
#[tactic(auto, unfolding(crate::specs::Keys::number_pair, spelled::specs::Texts::bytes_of))]
fn is_number_pair(words: &LineWords<'_>) -> bool
    ensures { result ≡ number_pair words.now }
{
    is_pair(words, b"DEMAND", b"MULTIPLIER")
        | is_pair(words, b"MINIMUM", b"PRESSURE")
        | is_pair(words, b"REQUIRED", b"PRESSURE")
        | is_pair(words, b"EMITTER", b"EXPONENT")
}

// Whether word k is a number, and this one.
#[tactic(auto, unfolding(crate::specs::Keys::is_value))]
fn is_value(words: &LineWords<'_>, k: usize, x: f64) -> bool
    requires { k < 10 }
    ensures { result ≡ is_value words.now k x }
{
    is_number(words, k) & (number_at(words, k) == x)
}

// Whether the words are a key of one word and what it takes.
#[tactic(auto, unfolding(crate::specs::Keys::one_word_good, option_values::specs::Values::is_unit, option_values::specs::Values::count_of, spelled::specs::Texts::bytes_of))]
fn one_word_good(words: &LineWords<'_>) -> bool
    ensures { result ≡ one_word_good words.now }
{
    let value = words.word(1);
    let unit = is_keyword(words, 0, b"UNITS") & unit_of(value).is_some();
    let trials = is_keyword(words, 0, b"TRIALS") & count_of(value).is_some();
    let formula = is_keyword(words, 0, b"HEADLOSS") & is_keyword(words, 1, b"H-W");
    let number = is_number_key(words) & is_number(words, 1);
    unit | trials | formula | number | is_keyword(words, 0, b"PATTERN")
}

// Whether the words are a key of two words and what it takes.
#[tactic(auto, unfolding(crate::specs::Keys::two_words_good, spelled::specs::Texts::bytes_of))]
fn two_words_good(words: &LineWords<'_>) -> bool
    ensures { result ≡ two_words_good words.now }
{
    let number = is_number_pair(words) & is_number(words, 2);
    let model = is_pair(words, b"DEMAND", b"MODEL")
        & (is_keyword(words, 2, b"DDA") | is_keyword(words, 2, b"PDA"));
    let gravity = is_pair(words, b"SPECIFIC", b"GRAVITY") & is_value(words, 2, 1.0);
    let exponent = is_pair(words, b"PRESSURE", b"EXPONENT") & is_value(words, 2, 0.5);
    number | model | gravity | exponent
}

// A line that is no option cannot be read.
#[tactic(auto, unfolding(crate::specs::Keys::option_fault))]
pub fn option_fault(words: &LineWords<'_>) -> Result<(), LineFault>
    ensures { result ≡ option_fault words.now }
{
    let one = words.has(1) & !words.has(2) & one_word_good(words);
    let two = words.has(2) & !words.has(3) & two_words_good(words);
    fault(is_passed(words) | one | two, false)
}
