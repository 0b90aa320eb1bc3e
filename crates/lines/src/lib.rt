// The lines of a text, by their places in it.
#![tactic(auto)]

ghost use Rattle.std.specs.Prelude.{◌≡◌, ◌≤◌, length};
ghost use Rattle.lines.specs.Lines.{stretch, is_newline, end_of, line_at};

// A line that begins at some place: its end, and where the next line begins, unless it is the last.
#[derive(Clone, Copy)]
pub struct Line {
    pub end: usize,
    pub next: Option<usize>,
}

// How many bytes stand before the first newline, or all.
fn before_newline(s: &[u8]) -> usize
    ensures { (result ≡ stretch is_newline s.now) × (result ≤ length s.now) }
{
    s.iter().position(|c| *c == b'\n').unwrap_or(s.len())
}

// The end of a line without the carriage return that may stand before it.
#[tactic(auto, unfolding(crate::specs::Lines::end_of))]
fn without_return(text: &[u8], at: usize, stop: usize) -> usize
    requires { (at ≤ stop) × (stop ≤ length text.now) }
    ensures { result ≡ end_of text.now at stop }
{
    if at < stop && text[stop - 1] == b'\r' {
        return stop - 1;
    }
    stop
}

// The line that begins at `at`.
#[tactic(auto, unfolding(crate::specs::Lines::line_at))]
pub fn line_at(text: &[u8], at: usize) -> Line
    requires { at ≤ length text.now }
    ensures { result ≡ line_at text.now at }
{
    let stop = at + before_newline(&text[at..]);
    Line {
        end: without_return(text, at, stop),
        next: if stop < text.len() {
            Some(stop + 1)
        } else {
            None
        },
    }
}
