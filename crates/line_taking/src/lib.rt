// What a line that is not refused makes known.
#![tactic(auto)]

ghost use Rattle.std.specs.Prelude.{◌≡◌, Ok, ◌≤◌, length};
ghost use Rattle.named_lines.specs.Named.{words_from, first_from};
ghost use Rattle.known.specs.Known.{data_fault, data_taken, line_fault, line_taken, pipe_kind};

use known::Knowledge;
use line_words::Word;
use named_lines::Kind;
use option_settings::with_option;
use pipe_lines::{PipeStatus, pipe_status};
use section_names::{Section, is_header, section_of};
use valve_lines::valve_kind;
use word_places::LineWords;

#[tactic(auto, unfolding(known::specs::Known::pipe_kind))]
fn pipe_kind(status: PipeStatus) -> Kind
    ensures { result ≡ pipe_kind status }
{
    match status {
        PipeStatus::Checked => Kind::CheckedPipe,
        _ => Kind::Pipe,
    }
}

// The line from `at` on, which is no header; its first word is at `name`.
#[tactic(auto, unfolding(known::specs::Known::data_fault, known::specs::Known::data_taken, known::specs::Known::with_node, known::specs::Known::with_link, known::specs::Known::name_fault, known::specs::Known::setting_fault, known::specs::Known::is_known, named_lines::specs::Named::found_at, named_lines::specs::Named::with_line, named_lines::specs::Named::with_settled))]
fn take_data(known: &mut Knowledge<'_>, words: &LineWords<'_>, name: Word, at: usize)
    requires at_in_bounds { at ≤ length known.old.text }
    requires words { words.now ≡ words_from known.old.text at }
    requires name { name ≡ first_from known.old.text at }
    requires faultless { data_fault known.old.known.section known.old.known words.now ≡ Ok tt }
    ensures { known.new ≡ record { text = known.old.text; known = data_taken known.old.known.section known.old.known words.now } }
{
    match known.section {
        Section::Junctions => known.nodes.put_named(at, name, Kind::Junction),
        Section::Reservoirs => known.nodes.put_named(at, name, Kind::Reservoir),
        Section::Tanks => known.nodes.put_named(at, name, Kind::Tank),
        Section::Pipes => known
            .links
            .put_named(at, name, pipe_kind(pipe_status(words))),
        Section::Valves => known
            .links
            .put_named(at, name, Kind::Valve(valve_kind(words))),
        Section::Status => {
            if let Some(j) = known.links.position(words.word(0)) {
                known.links.settle(j, at);
            }
        }
        Section::Options => known.settings = with_option(words, known.settings),
        Section::Before | Section::Passed | Section::Other => {}
    }
}

// The line from `at` on; a header begins its section.
pub fn take_line(known: &mut Knowledge<'_>, words: &LineWords<'_>, at: usize)
    requires at_in_bounds { at ≤ length known.old.text }
    requires words { words.now ≡ words_from known.old.text at }
    requires faultless { line_fault known.old.known words.now ≡ Ok tt }
    ensures { known.new ≡ record { text = known.old.text; known = line_taken known.old.known words.now } }
{
    let name = known.nodes.name_at(at);
    take_named(known, words, name, at);
}

// The same, for a caller who has found the line's first word.
#[tactic(auto, unfolding(known::specs::Known::line_fault, known::specs::Known::line_taken))]
pub fn take_named(known: &mut Knowledge<'_>, words: &LineWords<'_>, name: Word, at: usize)
    requires at_in_bounds { at ≤ length known.old.text }
    requires words { words.now ≡ words_from known.old.text at }
    requires name { name ≡ first_from known.old.text at }
    requires faultless { line_fault known.old.known words.now ≡ Ok tt }
    ensures { known.new ≡ record { text = known.old.text; known = line_taken known.old.known words.now } }
{
    if !words.has(0) {
        return;
    }
    let first = words.word(0);
    if is_header(first) {
        known.section = section_of(first);
        return;
    }
    take_data(known, words, name, at);
}
