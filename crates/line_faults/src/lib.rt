// What a line is refused with, given what is known before it.
#![tactic(auto)]

ghost use Rattle.std.specs.Prelude.{◌≡◌};
ghost use Rattle.known.specs.Known.{is_known, name_fault, ends_fault, settable, setting_fault, data_fault, line_fault};

use known::Knowledge;
use line_fields::LineFault;
use named_lines::{Kind, Table};
use node_lines::{junction_fault, reservoir_fault, tank_fault};
use option_lines::option_fault;
use pipe_lines::pipe_fault;
use section_names::{Section, is_header};
use status_lines::{Said, status_fault, status_said};
use valve_lines::valve_fault;
use word_places::LineWords;

#[tactic(auto, unfolding(known::specs::Known::is_known, named_lines::specs::Named::found_at))]
fn is_known(name: &[u8], names: &Table<'_>) -> bool
    ensures { result ≡ is_known name.now names.now.lines }
{
    names.position(name).is_some()
}

// A name that is there already, or one more than the table keeps.
#[tactic(auto, unfolding(known::specs::Known::name_fault))]
fn name_fault(words: &LineWords<'_>, names: &Table<'_>) -> Result<(), LineFault>
    ensures { result ≡ name_fault words.now names.now.lines names.now.room }
{
    if is_known(words.word(0), names) | names.is_full() {
        return Err(LineFault::Unreadable);
    }
    Ok(())
}

// A link with an end that is no node.
#[tactic(auto, unfolding(known::specs::Known::ends_fault))]
fn ends_fault(words: &LineWords<'_>, nodes: &Table<'_>) -> Result<(), LineFault>
    ensures { result ≡ ends_fault words.now nodes.now.lines }
{
    if is_known(words.word(1), nodes) & is_known(words.word(2), nodes) {
        return Ok(());
    }
    Err(LineFault::Unknown)
}

// Whether a link may be set so by a line of STATUS.
#[tactic(auto, unfolding(known::specs::Known::settable))]
fn settable(kind: Kind, said: Said) -> bool
    ensures { result ≡ settable kind said }
{
    match kind {
        Kind::CheckedPipe => false,
        Kind::Pipe => said != Said::Number,
        _ => true,
    }
}

// A line of STATUS: a link that is not there, or one that is not set so.
#[tactic(auto, unfolding(known::specs::Known::setting_fault, known::specs::Known::is_known, named_lines::specs::Named::found_at))]
fn setting_fault(words: &LineWords<'_>, links: &Table<'_>) -> Result<(), LineFault>
    ensures { result ≡ setting_fault words.now links.now.lines }
{
    status_fault(words)?;
    let j = links.position(words.word(0)).ok_or(LineFault::Unknown)?;
    if settable(links.kind(j), status_said(words)) {
        return Ok(());
    }
    Err(LineFault::Unreadable)
}

// A line that is no header.
#[tactic(auto, unfolding(known::specs::Known::data_fault))]
fn data_fault(known: &Knowledge<'_>, words: &LineWords<'_>) -> Result<(), LineFault>
    ensures { result ≡ data_fault known.now.known.section known.now.known words.now }
{
    match known.section {
        Section::Before => Err(LineFault::Unreadable),
        Section::Junctions => {
            name_fault(words, &known.nodes)?;
            junction_fault(words)
        }
        Section::Reservoirs => {
            name_fault(words, &known.nodes)?;
            reservoir_fault(words)
        }
        Section::Tanks => {
            name_fault(words, &known.nodes)?;
            tank_fault(words)
        }
        Section::Pipes => {
            name_fault(words, &known.links)?;
            pipe_fault(words)?;
            ends_fault(words, &known.nodes)
        }
        Section::Valves => {
            name_fault(words, &known.links)?;
            valve_fault(words)?;
            ends_fault(words, &known.nodes)
        }
        Section::Status => setting_fault(words, &known.links),
        Section::Options => option_fault(words),
        Section::Passed => Ok(()),
        Section::Other => Err(LineFault::Section),
    }
}

// Any line: one without words is taken, and a header stands alone on its line.
#[tactic(auto, unfolding(known::specs::Known::line_fault))]
pub fn line_fault(known: &Knowledge<'_>, words: &LineWords<'_>) -> Result<(), LineFault>
    ensures { result ≡ line_fault known.now.known words.now }
{
    if !words.has(0) {
        return Ok(());
    }
    if is_header(words.word(0)) {
        if words.has(1) {
            return Err(LineFault::Unreadable);
        }
        return Ok(());
    }
    data_fault(known, words)
}
