// What the words of a line are, by their number: a name, a number, a keyword; and what a line is refused with.
#![tactic(auto)]

ghost use Rattle.std.specs.Prelude.{◌≡◌, ◌<◌};
ghost use Rattle.line_fields.specs.Fields.{name_at, number_at, number_or_none, value_at, value_or_zero, keyword_at, fault_of, number_of};

use decimal_words::{spelled_number, worth};
use spelled::spells;
use word_places::LineWords;

// Why a line is refused: it cannot be read, it names what is not carried, or it begins a section that is not carried.
#[derive(Clone, Copy, PartialEq, Eq, Debug)]
pub enum LineFault {
    Unreadable,
    Unknown,
    Section,
}

// The number that a text is refused with for such a line.
impl From<LineFault> for u64 {
    fn from(fault: LineFault) -> u64
        ensures { result ≡ number_of fault }
    {
        match fault {
            LineFault::Unreadable => 10,
            LineFault::Unknown => 11,
            LineFault::Section => 12,
        }
    }
}

// Whether word k is short enough for a name.
#[tactic(auto, unfolding(crate::specs::Fields::name_at))]
pub fn is_name(words: &LineWords<'_>, k: usize) -> bool
    requires { k < 10 }
    ensures { result ≡ name_at words.now k }
{
    words.word(k).len() <= 31
}

// Whether word k spells a number.
#[tactic(auto, unfolding(crate::specs::Fields::number_at))]
pub fn is_number(words: &LineWords<'_>, k: usize) -> bool
    requires { k < 10 }
    ensures { result ≡ number_at words.now k }
{
    spelled_number(words.word(k)).is_some()
}

// Whether word k spells a number or is not there.
#[tactic(auto, unfolding(crate::specs::Fields::number_or_none))]
pub fn is_number_or_none(words: &LineWords<'_>, k: usize) -> bool
    requires { k < 10 }
    ensures { result ≡ number_or_none words.now k }
{
    !words.has(k) | is_number(words, k)
}

// The f64 that word k spells; 0.0 where it spells none.
#[tactic(auto, unfolding(crate::specs::Fields::value_at))]
pub fn number_at(words: &LineWords<'_>, k: usize) -> f64
    requires { k < 10 }
    ensures { result ≡ value_at words.now k }
{
    match spelled_number(words.word(k)) {
        Some(w) => worth(w),
        None => 0.0,
    }
}

// The f64 that word k spells, or 0.0 where it is not there.
#[tactic(auto, unfolding(crate::specs::Fields::value_or_zero))]
pub fn number_or_zero(words: &LineWords<'_>, k: usize) -> f64
    requires { k < 10 }
    ensures { result ≡ value_or_zero words.now k }
{
    if words.has(k) {
        return number_at(words, k);
    }
    0.0
}

// Whether word k is the keyword, which is given in capitals.
#[tactic(auto, unfolding(crate::specs::Fields::keyword_at))]
pub fn is_keyword(words: &LineWords<'_>, k: usize, keyword: &[u8]) -> bool
    requires { k < 10 }
    ensures { result ≡ keyword_at words.now k keyword.now }
{
    spells(words.word(k), keyword)
}

// A line that cannot be read is not asked for names.
#[tactic(auto, unfolding(crate::specs::Fields::fault_of))]
pub fn fault(good: bool, unknown: bool) -> Result<(), LineFault>
    ensures { result ≡ fault_of good unknown }
{
    if !good {
        return Err(LineFault::Unreadable);
    }
    if unknown {
        return Err(LineFault::Unknown);
    }
    Ok(())
}
