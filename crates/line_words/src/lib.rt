// The words of a line, by their places in it.
#![tactic(auto)]

ghost use Rattle.std.specs.Prelude.{◌≡◌, ◌≤◌, length};
ghost use Rattle.lines.specs.Lines.{stretch};
ghost use Rattle.line_words.specs.Words.{is_blank, not_blank, ends_word, word_from};

// From where up to where a word stands; both are the line's length where there is none.
#[derive(Clone, Copy)]
pub struct Word {
    pub start: usize,
    pub end: usize,
}

#[tactic(auto, unfolding(crate::specs::Words::is_blank))]
fn is_blank(c: u8) -> bool
    ensures { result ≡ is_blank c }
{
    (c == b' ') | (c == b'\t')
}

#[tactic(auto, unfolding(crate::specs::Words::ends_word, crate::specs::Words::is_comment))]
fn ends_word(c: u8) -> bool
    ensures { result ≡ ends_word c }
{
    is_blank(c) | (c == b';')
}

// How many blanks stand first.
fn blanks(s: &[u8]) -> usize
    ensures { (result ≡ stretch not_blank s.now) × (result ≤ length s.now) }
{
    s.iter().position(|c| !is_blank(*c)).unwrap_or(s.len())
}

// How many bytes of a word stand first.
fn word_length(s: &[u8]) -> usize
    ensures { (result ≡ stretch ends_word s.now) × (result ≤ length s.now) }
{
    s.iter().position(|c| ends_word(*c)).unwrap_or(s.len())
}

// The first word from `at` on.
pub fn next_word(line: &[u8], at: usize) -> Word
    requires { at ≤ length line.now }
    ensures { result ≡ word_from line.now at }
{
    // most lines have fewer words than are asked for
    if at == line.len() {
        return Word { start: at, end: at };
    }
    let start = at + blanks(&line[at..]);
    if start < line.len() && line[start] == b';' {
        return Word {
            start: line.len(),
            end: line.len(),
        };
    }
    Word {
        start,
        end: start + word_length(&line[start..]),
    }
}
