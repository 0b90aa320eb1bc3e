// Replays a text of at most 64 KiB over crates lines, line_words and decimal_words: for each of its lines a line, with the pattern of
// each word as 16 hex digits, or a dash where it spells no number.
#![tactic(auto)]

use std::io;
use std::io::Write;
use std::process::ExitCode;

fn show<W: Write>(writer: &mut W, word: &[u8]) -> io::Result<()> {
    match decimal_words::spelled_number(word) {
        Some(w) => standard::put_float(writer, decimal_words::worth(w))?,
        None => standard::put(writer, b"-")?,
    }
    standard::put(writer, b" ")
}

fn show_words<W: Write>(writer: &mut W, line: &[u8]) -> io::Result<()> {
    let mut at: usize = 0;
    loop {
        let w = line_words::next_word(line, at);
        if w.end <= w.start {
            return Ok(());
        }
        show(writer, &line[w.start..w.end])?;
        at = w.end;
    }
}

fn show_lines<W: Write>(writer: &mut W, text: &[u8]) -> io::Result<()> {
    let mut at: usize = 0;
    loop {
        let l = lines::line_at(text, at);
        show_words(writer, &text[at..l.end])?;
        standard::put(writer, b"\n")?;
        let Some(next) = l.next else {
            return Ok(());
        };
        at = next;
    }
}

fn run(rt: &HostRuntime) -> io::Result<()> {
    let mut reader = rt.stdin();
    let mut writer = rt.stdout();
    let mut buffer = [0u8; 65536];
    let n = standard::fill(&mut reader, &mut buffer)?;
    show_lines(&mut writer, &buffer[..n])
}

fn main(rt: HostRuntime) -> ExitCode {
    let done = run(&rt);
    standard::ended(&rt, done)
}
