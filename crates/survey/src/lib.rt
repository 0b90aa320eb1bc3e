// All lines of a text, until one is refused.
#![tactic(auto)]

ghost use Rattle.std.specs.Prelude.{◌≡◌};
ghost use Rattle.known.specs.Known.{nothing_known, survey_of};
ghost use Rattle.survey.specs.Surveyed.{surveyed_of};

use known::{Knowledge, Progress, Refused};
use line_faults::line_fault;
use line_taking::take_named;
use line_words::next_word;
use lines::line_at;
use named_lines::NamedLine;
use word_places::LineWords;

// The first line that is refused, if there is one; and what was known there.
#[derive(Drop)]
pub struct Findings<'a> {
    pub told: Result<(), Refused>,
    pub known: Knowledge<'a>,
}

// The first line that is refused, if there is one; and how far the reading came.
#[derive(Clone, Copy)]
pub struct Surveyed {
    pub told: Result<(), Refused>,
    pub found: Progress,
}

impl<'a> Findings<'a> {
    // The same, with no table.
    #[tactic(auto, unfolding(crate::specs::Surveyed::surveyed_of))]
    pub fn surveyed(&self) -> Surveyed
        ensures { result ≡ surveyed_of (record { told = self.now.told; known = self.now.known.known }) }
    {
        Surveyed {
            told: self.told,
            found: self.known.progress(),
        }
    }
}

// Reads every line, until one is refused.
fn read_lines(text: &[u8], known: &mut Knowledge<'_>) -> Result<(), Refused>
    requires { known.old ≡ record { text = text.now; known = nothing_known } }
    ensures told { record { told = result; known = known.new.known } ≡ survey_of text.now }
    ensures text { known.new.text ≡ text.now }
{
    let mut at: usize = 0;
    let mut line: usize = 1;
    loop {
        let l = line_at(text, at);
        let bytes = &text[at..l.end];
        let name = next_word(bytes, 0);
        let words = LineWords::behind(bytes, name);
        if let Err(fault) = line_fault(known, &words) {
            return Err(Refused { fault, line });
        }
        take_named(known, &words, name, at);
        let Some(next) = l.next else {
            return Ok(());
        };
        at = next;
        line += 1;
    }
}

// The lines of a text; the tables are lent.
pub fn survey<'a>(
    text: &'a [u8],
    nodes: &'a mut [NamedLine; 512],
    links: &'a mut [NamedLine; 1024],
) -> Findings<'a>
    ensures told { record { told = result.told; known = result.known.known } ≡ survey_of text.now }
    ensures text { result.known.text ≡ text.now }
{
    let mut known = Knowledge::new(text, nodes, links);
    let told = read_lines(text, &mut known);
    Findings { told, known }
}

#[cfg(test)]
mod tests {
    use super::*;
    use line_taking::take_line;
    use section_names::Section;

    // The line's first word is found where its place is not handed in.
    #[test]
    #[tactic(auto, unfolding(named_lines::specs::Named::words_from))]
    fn take_line_finds_the_name(rt: HostRuntime) {
        let text: &[u8] = b"  R1 30";
        let mut nodes = [NamedLine::default(); 512];
        let mut links = [NamedLine::default(); 1024];
        let mut known = Knowledge::new(text, &mut nodes, &mut links);
        known.section = Section::Reservoirs;
        let l = line_at(text, 0);
        assert_eq!(rt; l.end, text.len());
        let words = LineWords::of(&text[0..l.end]);
        assert!(rt; line_fault(&known, &words).is_ok());
        take_line(&mut known, &words, 0);
        assert_eq!(rt; known.nodes.len(), 1);
        assert!(rt; known.nodes.name(0) == b"R1".as_slice());
    }
}
