// What the lines of an EPANET text make known; how far the reading of one is.
#![tactic(auto)]

ghost use Rattle.std.specs.Prelude.{◌≡◌};
ghost use Rattle.known.specs.Known.{nothing_known};
ghost use Rattle.known.specs.Progress.{progress_of};

use line_fields::LineFault;
use named_lines::{NamedLine, Table};
use section_names::Section;
use std::marker::Model;
use text_settings::{Settings, default_settings};

// Why a text is refused, and the number of the line.
#[derive(Clone, Copy)]
pub struct Refused {
    pub fault: LineFault,
    pub line: usize,
}

// The section of the next line, the options so far, and how many rows the tables of nodes and links have.
#[derive(Clone, Copy)]
pub struct Progress {
    pub section: Section,
    pub settings: Settings,
    pub nodes: usize,
    pub links: usize,
}

// The section of the next line, the options so far, and the lines that define nodes and links. A clause sees the text and what is known.
#[derive(Drop)]
pub struct Knowledge<'a> {
    pub section: Section,
    pub settings: Settings,
    pub nodes: Table<'a>,
    pub links: Table<'a>,
}

impl<'a> Model for Knowledge<'a> {
    ghost use Rattle.known.specs.Known.{Reading};

    ghost Value = { Reading };

    ghost use Rattle.known.specs.Knowledge.{reading, Tabled};

    ghost view = { reading };

    ghost invariant = { Tabled };
}

impl<'a> Knowledge<'a> {
    // Nothing is read; the tables are for 512 nodes and 1,024 links.
    #[tactic(auto, unfolding(crate::specs::Known::nothing_known))]
    pub fn new(
        text: &'a [u8],
        nodes: &'a mut [NamedLine; 512],
        links: &'a mut [NamedLine; 1024],
    ) -> Self
        ensures { result ≡ record { text = text.now; known = nothing_known } }
    {
        Knowledge {
            section: Section::Before,
            settings: default_settings(),
            nodes: Table::new(text, nodes),
            links: Table::new(text, links),
        }
    }

    // How far the reading is, with no table.
    #[tactic(auto, unfolding(crate::specs::Progress::progress_of))]
    pub fn progress(&self) -> Progress
        ensures { result ≡ progress_of self.now.known }
    {
        Progress {
            section: self.section,
            settings: self.settings,
            nodes: self.nodes.len(),
            links: self.links.len(),
        }
    }
}
