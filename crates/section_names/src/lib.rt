// The sections of a text by their headers.
#![tactic(auto)]

ghost use Rattle.std.specs.Prelude.{◌≡◌};
ghost use Rattle.section_names.specs.Sections.{is_header, passed_over, section_of};

use spelled::spells;

// Where a line stands: before any section, in one of the seven that are carried, in one that is passed over, or in any other.
#[derive(Clone, Copy)]
pub enum Section {
    Before,
    Junctions,
    Reservoirs,
    Tanks,
    Pipes,
    Valves,
    Status,
    Options,
    Passed,
    Other,
}

// Whether a line's first word begins a section.
#[tactic(auto, unfolding(crate::specs::Sections::is_header))]
pub fn is_header(word: &[u8]) -> bool
    ensures { result ≡ is_header word.now }
{
    matches!(word, [b'[', ..])
}

#[tactic(auto, unfolding(crate::specs::Sections::passed_over, spelled::specs::Texts::bytes_of))]
fn is_passed(word: &[u8]) -> bool
    ensures { result ≡ passed_over word.now }
{
    spells(word, b"[TITLE]") | spells(word, b"[COORDINATES]") | spells(word, b"[VERTICES]")
}

// The section that a header begins.
#[tactic(auto, unfolding(crate::specs::Sections::section_of, spelled::specs::Texts::bytes_of))]
pub fn section_of(word: &[u8]) -> Section
    ensures { result ≡ section_of word.now }
{
    if spells(word, b"[JUNCTIONS]") {
        Section::Junctions
    } else if spells(word, b"[RESERVOIRS]") {
        Section::Reservoirs
    } else if spells(word, b"[TANKS]") {
        Section::Tanks
    } else if spells(word, b"[PIPES]") {
        Section::Pipes
    } else if spells(word, b"[VALVES]") {
        Section::Valves
    } else if spells(word, b"[STATUS]") {
        Section::Status
    } else if spells(word, b"[OPTIONS]") {
        Section::Options
    } else if is_passed(word) {
        Section::Passed
    } else {
        Section::Other
    }
}
