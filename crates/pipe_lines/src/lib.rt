// The lines of PIPES: what each is refused with by its words alone, and what one without a fault says.
#![tactic(auto)]

ghost use Rattle.std.specs.Prelude.{◌≡◌, ◌<◌};
ghost use Rattle.pipe_lines.specs.Pipes.{status_at, pipe_end_good, pipe_fault, status_place, pipe_status_of, pipe_loss_of};

use first_words::names_good;
use line_fields::{LineFault, fault, is_keyword, is_number, number_or_zero};
use word_places::LineWords;

// A pipe with a check valve is `Checked`.
#[derive(Clone, Copy, PartialEq, Eq, Debug)]
pub enum PipeStatus {
    Closed,
    Open,
    Checked,
}

// Whether word k is OPEN, CLOSED or CV.
#[tactic(auto, unfolding(crate::specs::Pipes::status_at, spelled::specs::Texts::bytes_of))]
fn is_status(words: &LineWords<'_>, k: usize) -> bool
    requires { k < 10 }
    ensures { result ≡ status_at words.now k }
{
    is_keyword(words, k, b"OPEN") | is_keyword(words, k, b"CLOSED") | is_keyword(words, k, b"CV")
}

// Behind the roughness nothing, a minor loss, a status, or first a minor loss and then a status.
#[tactic(auto, unfolding(crate::specs::Pipes::pipe_end_good))]
fn pipe_end_good(words: &LineWords<'_>) -> bool
    ensures { result ≡ pipe_end_good words.now }
{
    if words.has(7) {
        return is_number(words, 6) & is_status(words, 7);
    }
    !words.has(6) | is_status(words, 6) | is_number(words, 6)
}

// Name, start, end, length, diameter, roughness; then, or not, a minor loss and a status.
#[tactic(auto, unfolding(crate::specs::Pipes::pipe_fault))]
pub fn pipe_fault(words: &LineWords<'_>) -> Result<(), LineFault>
    ensures { result ≡ pipe_fault words.now }
{
    let count = words.has(5) & !words.has(8);
    let numbers = is_number(words, 3) & is_number(words, 4) & is_number(words, 5);
    fault(
        count & names_good(words) & numbers & pipe_end_good(words),
        false,
    )
}

// Which word a pipe's status is, where there is one.
#[tactic(auto, unfolding(crate::specs::Pipes::status_place))]
fn status_place(words: &LineWords<'_>) -> usize
    ensures { (result ≡ status_place words.now) × (result < 10) }
{
    if words.has(7) {
        return 7;
    }
    6
}

// What a pipe's line says of its status; a pipe is open where it says nothing.
#[tactic(auto, unfolding(crate::specs::Pipes::pipe_status_of, spelled::specs::Texts::bytes_of))]
pub fn pipe_status(words: &LineWords<'_>) -> PipeStatus
    ensures { result ≡ pipe_status_of words.now }
{
    let k = status_place(words);
    if is_keyword(words, k, b"CLOSED") {
        return PipeStatus::Closed;
    }
    if is_keyword(words, k, b"CV") {
        return PipeStatus::Checked;
    }
    PipeStatus::Open
}

// A pipe's minor loss, or 0.0 where its line has none.
#[tactic(auto, unfolding(crate::specs::Pipes::pipe_loss_of))]
pub fn minor_loss(words: &LineWords<'_>) -> f64
    ensures { result ≡ pipe_loss_of words.now }
{
    if is_status(words, 6) {
        return 0.0;
    }
    number_or_zero(words, 6)
}
