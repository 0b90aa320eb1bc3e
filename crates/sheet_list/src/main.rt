// Reads sheets, each behind its length as a 4-byte little-endian number, and writes a line for each:
// `G` and the counts of nodes and links, or `R` and the refusal's number and place.
#![tactic(auto)]

use layout::Layout;
use refusals::Refusal;
use std::io;
use std::io::{Read, Write};
use std::process::ExitCode;

fn line<W: Write>(writer: &mut W, mark: &[u8], x: usize, y: usize) -> io::Result<()> {
    standard::put(writer, mark)?;
    standard::put_decimal(writer, x as u64)?;
    standard::put(writer, b" ")?;
    standard::put_decimal(writer, y as u64)?;
    standard::put(writer, b"\n")
}

fn show<W: Write>(writer: &mut W, reading: Result<Layout, Refusal>) -> io::Result<()> {
    match reading {
        Ok(l) => line(writer, b"G ", l.nodes, l.links),
        Err(refusal) => line(
            writer,
            b"R ",
            refusals::refusal_number(refusal),
            refusals::refusal_place(refusal),
        ),
    }
}

// One sheet, or false where there is none.
fn step<R: Read, W: Write>(reader: &mut R, writer: &mut W) -> io::Result<bool> {
    let mut head = [0u8; 4];
    let mut buffer = [0u8; 65536];
    let Some(size) = standard::next_sheet(reader, writer, &mut head, &mut buffer)? else {
        return Ok(false);
    };
    show(writer, sheet::read(&buffer[..size]))?;
    Ok(true)
}

fn main(rt: HostRuntime) -> ExitCode {
    let mut reader = rt.stdin();
    let mut writer = rt.stdout();
    let done = standard::take_steps(100000, || step(&mut reader, &mut writer));
    standard::ended(&rt, done)
}
