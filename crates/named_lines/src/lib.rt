// The lines of a text that define a name, kept in a table by their places.
#![tactic(auto)]

ghost use Rattle.std.specs.Prelude.{◌≡◌, ◌<◌, ◌≤◌, leb, length, get_or};
ghost use Rattle.lines.specs.Lines.{passage, line_at};
ghost use Rattle.named_lines.specs.Named.{nameless, name_of, first_from, no_names, found_at, with_line, with_settled};
ghost use Rattle.named_lines.specs.Table.{Row, row_of, row_put, row_settled};

use codes::LinkKind;
use line_words::{Word, next_word};
use lines::line_at;
use spelled::same_bytes;
use std::marker::Model;
use word_places::LineWords;

// What a name is that of.
#[derive(Clone, Copy, Default)]
pub enum Kind {
    #[default]
    Junction,
    Reservoir,
    Tank,
    Pipe,
    CheckedPipe,
    Valve(LinkKind),
}

// Where the line begins, where its name begins and ends, and where the line begins that settled its status, which is its own at first.
#[derive(Clone, Copy, Default)]
pub struct NamedLine {
    at: usize,
    from: usize,
    to: usize,
    kind: Kind,
    settled: usize,
}

// Row n of lent rows: the line from `at` on, its name from `from` up to `to`, its kind; its own line is the one that
// settled its status.
#[tactic(auto, unfolding(crate::specs::Table::row_put))]
pub fn put_row(rows: &mut [NamedLine], n: usize, at: usize, from: usize, to: usize, kind: Kind)
    requires { n < length rows.old }
    ensures { rows.new ≡ row_put rows.old n at from to kind }
{
    rows[n] = NamedLine {
        at,
        from,
        to,
        kind,
        settled: at,
    };
}

// Row j settled by the line from `at` on.
#[tactic(auto, unfolding(crate::specs::Table::row_settled))]
pub fn settle(rows: &mut [NamedLine], j: usize, at: usize)
    requires { j < length rows.old }
    ensures { rows.new ≡ row_settled rows.old j at }
{
    rows[j].settled = at;
}

// Lines of a text that define a name, in lent rows. A clause sees the text, how many rows there are, and the words of the lines.
#[derive(Drop)]
pub struct Table<'a> {
    text: &'a [u8],
    rows: &'a mut [NamedLine],
    count: usize,
}

impl<'a> Model for Table<'a> {
    ghost use Rattle.std.specs.Prelude.{take, length};
    ghost use Rattle.named_lines.specs.Named.{Names};

    ghost Value = { Names };

    ghost use Rattle.named_lines.specs.Table.{rows_of, Kept};

    ghost view = { λ a. record { text = a.text.now; room = length a.rows.now; lines = rows_of a.text.now (take a.count a.rows.now) } };

    ghost invariant = { λ a. Kept a.text.now a.rows.now a.count };
}

// The line of a text that begins at `at`.
fn line_from<'a>(text: &'a [u8], at: usize) -> &'a [u8]
    requires { at ≤ length text.now }
    ensures { result.now ≡ passage at (line_at text.now at).end text.now }
{
    &text[at..line_at(text, at).end]
}

impl<'a> Table<'a> {
    pub fn new(text: &'a [u8], rows: &'a mut [NamedLine]) -> Self
        ensures { result ≡ no_names text.now (length rows.old) }
    {
        Table {
            text,
            rows,
            count: 0,
        }
    }

    pub fn len(&self) -> usize
        ensures lines { result ≡ length self.now.lines }
        ensures room { result ≤ self.now.room }
    {
        self.count
    }

    // Whether one more line has no room.
    pub fn is_full(&self) -> bool
        ensures { result ≡ leb self.now.room (length self.now.lines) }
    {
        self.count == self.rows.len()
    }

    // Row i.
    fn row(&self, i: usize) -> NamedLine
        requires { i < length self.now.lines }
        ensures { (row_of self.now.text result ≡ get_or self.now.lines i nameless) × Row self.now.text result }
    {
        let rows = &self.rows[..self.count];
        rows[i]
    }

    #[tactic(auto, unfolding(crate::specs::Table::row_of))]
    pub fn kind(&self, i: usize) -> Kind
        requires { i < length self.now.lines }
        ensures { result ≡ (get_or self.now.lines i nameless).kind }
    {
        self.row(i).kind
    }

    pub fn name(&self, i: usize) -> &'a [u8]
        requires { i < length self.now.lines }
        ensures { result.now ≡ name_of (get_or self.now.lines i nameless) }
    {
        let row = self.row(i);
        &self.text[row.from..row.to]
    }

    pub fn words(&self, i: usize) -> LineWords<'a>
        requires { i < length self.now.lines }
        ensures { result ≡ (get_or self.now.lines i nameless).words }
    {
        LineWords::of(line_from(self.text, self.row(i).at))
    }

    // The words of the line that settled the status of line i.
    pub fn said(&self, i: usize) -> LineWords<'a>
        requires { i < length self.now.lines }
        ensures { result ≡ (get_or self.now.lines i nameless).said }
    {
        LineWords::of(line_from(self.text, self.row(i).settled))
    }

    // The number of the line whose name is the word.
    pub fn position(&self, word: &[u8]) -> Option<usize>
        ensures { result ≡ found_at word.now self.now.lines }
    {
        for i in 0..self.len() {
            if same_bytes(self.name(i), word) {
                return Some(i);
            }
        }
        None
    }

    // Where the first word of the line from `at` on stands in it.
    pub fn name_at(&self, at: usize) -> Word
        requires { at ≤ length self.now.text }
        ensures { result ≡ first_from self.now.text at }
    {
        next_word(line_from(self.text, at), 0)
    }

    // The line from `at` on, behind the others.
    pub fn put(&mut self, at: usize, kind: Kind)
        requires { (at ≤ length self.old.text) × (length self.old.lines < self.old.room) }
        ensures { self.new ≡ with_line self.old at kind }
    {
        let name = self.name_at(at);
        self.put_named(at, name, kind);
    }

    // The line from `at` on, behind the others; its first word is the name, and was found with the others.
    pub fn put_named(&mut self, at: usize, name: Word, kind: Kind)
        requires room { (at ≤ length self.old.text) × (length self.old.lines < self.old.room) }
        requires name { name ≡ first_from self.old.text at }
        ensures { self.new ≡ with_line self.old at kind }
    {
        let n = self.count;
        put_row(self.rows, n, at, at + name.start, at + name.end, kind);
        self.count = n + 1;
    }

    // Line j settled by the line from `at` on.
    pub fn settle(&mut self, j: usize, at: usize)
        requires { (at ≤ length self.old.text) × (j < length self.old.lines) }
        ensures { self.new ≡ with_settled self.old j at }
    {
        settle(self.rows, j, at);
    }
}

#[cfg(test)]
mod tests {
    use super::*;

    // The name's place is found where none is handed in.
    #[test]
    fn put_finds_the_name(rt: HostRuntime) {
        let text: &[u8] = b"  T1 30 ;name\n";
        let mut rows = [NamedLine::default(); 2];
        let mut table = Table::new(text, &mut rows);
        let name = table.name_at(0);
        assert_eq!(rt; name.start, 2);
        assert_eq!(rt; name.end, 4);
        table.put(0, Kind::Tank);
        assert_eq!(rt; table.len(), 1);
        assert!(rt; table.name(0) == b"T1".as_slice());
        assert!(rt; !table.is_full());
    }
}
