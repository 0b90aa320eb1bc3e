// The lines of STATUS: what each is refused with by its words alone, and what one without a fault says.
#![tactic(auto)]

ghost use Rattle.std.specs.Prelude.{◌≡◌};
ghost use Rattle.status_lines.specs.Status.{status_good, status_fault, said_of};

use line_fields::{LineFault, fault, is_keyword, is_name, is_number};
use word_places::LineWords;

// `Number` is a setting.
#[derive(Clone, Copy, PartialEq, Eq, Debug)]
pub enum Said {
    Closed,
    Open,
    Number,
}

// OPEN, CLOSED or a number.
#[tactic(auto, unfolding(crate::specs::Status::status_good, spelled::specs::Texts::bytes_of))]
fn status_good(words: &LineWords<'_>) -> bool
    ensures { result ≡ status_good words.now }
{
    is_keyword(words, 1, b"OPEN") | is_keyword(words, 1, b"CLOSED") | is_number(words, 1)
}

// A link's name, and its status or setting.
#[tactic(auto, unfolding(crate::specs::Status::status_fault))]
pub fn status_fault(words: &LineWords<'_>) -> Result<(), LineFault>
    ensures { result ≡ status_fault words.now }
{
    let count = words.has(1) & !words.has(2);
    fault(count & is_name(words, 0) & status_good(words), false)
}

// What a line of STATUS says.
#[tactic(auto, unfolding(crate::specs::Status::said_of, spelled::specs::Texts::bytes_of))]
pub fn status_said(words: &LineWords<'_>) -> Said
    ensures { result ≡ said_of words.now }
{
    if is_keyword(words, 1, b"CLOSED") {
        return Said::Closed;
    }
    if is_keyword(words, 1, b"OPEN") {
        return Said::Open;
    }
    Said::Number
}
