// Reads sheets, each behind its length as a 4-byte little-endian number, and writes the listing of
// each, followed by a line `--`. A length above 65,536 or an input that is cut gives a line `X` and
// is the last.
#![tactic(auto)]

use std::io;
use std::io::{Read, Write};
use std::process::ExitCode;

fn show<W: Write>(writer: &mut W, sheet: &[u8]) -> io::Result<()> {
    let mut out = [0u8; 65536];
    let n = listing_text::compose(sheet, &mut out);
    standard::put_item(writer, &mut out, n)
}

// One sheet, or false where there is none.
fn step<R: Read, W: Write>(reader: &mut R, writer: &mut W) -> io::Result<bool> {
    let mut head = [0u8; 4];
    let mut buffer = [0u8; 65536];
    let Some(size) = standard::next_sheet(reader, writer, &mut head, &mut buffer)? else {
        return Ok(false);
    };
    show(writer, &buffer[..size])?;
    Ok(true)
}

fn main(rt: HostRuntime) -> ExitCode {
    let mut reader = rt.stdin();
    let mut writer = rt.stdout();
    let done = standard::take_steps(u64::MAX, || step(&mut reader, &mut writer));
    standard::ended(&rt, done)
}
