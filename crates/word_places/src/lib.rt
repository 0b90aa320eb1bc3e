// The first ten words of a line, their places found once, and each word by its number.
#![tactic(auto)]

ghost use Rattle.std.specs.Prelude.{◌≡◌, [], ◌<◌, ltb, length, get_or};
ghost use Rattle.line_words.specs.Words.{words_of, word_from};

use line_words::{Word, next_word};
use std::marker::Model;

// A line and where each of its first ten words stands. A clause sees the words of the line.
#[derive(Drop)]
pub struct LineWords<'a> {
    line: &'a [u8],
    places: [Word; 10],
}

impl<'a> Model for LineWords<'a> {
    ghost use Rattle.std.specs.Prelude.{ℕ, List};

    ghost Value = { List (List ℕ) };

    ghost use Rattle.line_words.specs.Words.{words_of};
    ghost use Rattle.word_places.specs.Places.{Words};

    ghost view = { λ a. words_of a.line.now };

    ghost invariant = { λ a. Words a.line.now a.places };
}

impl<'a> LineWords<'a> {
    pub fn of(line: &'a [u8]) -> LineWords<'a>
        ensures { result ≡ words_of line.now }
    {
        LineWords::behind(line, next_word(line, 0))
    }

    // The words of a line whose first was found, for a caller who keeps its place.
    pub fn behind(line: &'a [u8], first: Word) -> LineWords<'a>
        requires { first ≡ word_from line.now 0 }
        ensures { result ≡ words_of line.now }
    {
        // where no word stands
        let none = Word {
            start: line.len(),
            end: line.len(),
        };
        let mut places = [none; 10];
        places[0] = first;
        let mut at = first.end;
        for k in 1..10 {
            // most lines have fewer words
            if at == line.len() {
                return LineWords { line, places };
            }
            let found = next_word(line, at);
            places[k] = found;
            at = found.end;
        }
        LineWords { line, places }
    }

    // Word k of the line, or nothing.
    pub fn word(&self, k: usize) -> &'a [u8]
        requires { k < 10 }
        ensures { result.now ≡ get_or self.now k [] }
    {
        let Word { start, end } = self.places[k];
        &self.line[start..end]
    }

    // Whether the line has a word k.
    pub fn has(&self, k: usize) -> bool
        requires { k < 10 }
        ensures { result ≡ ltb k (length self.now) }
    {
        let Word { start, end } = self.places[k];
        start < end
    }
}
