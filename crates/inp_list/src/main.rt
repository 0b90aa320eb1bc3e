// Reads EPANET texts, each behind its length as a 4-byte little-endian number, and writes for each what
// `epanet` would, followed by a line `--`. A length above 65,536 or an input that is cut gives a line `X`
// and is the last.
#![tactic(auto)]

use std::io;
use std::io::{Read, Write};
use std::process::ExitCode;

// One text, or false where there is none.
fn step<R: Read, W: Write>(reader: &mut R, writer: &mut W) -> io::Result<bool> {
    let mut head = [0u8; 4];
    let mut buffer = [0u8; 65536];
    let Some(size) = standard::next_sheet(reader, writer, &mut head, &mut buffer)? else {
        return Ok(false);
    };
    if !text_out::show(writer, &buffer[..size])? {
        return Ok(false);
    }
    standard::put(writer, b"--\n")?;
    Ok(true)
}

fn main(rt: HostRuntime) -> ExitCode {
    let mut reader = rt.stdin();
    let mut writer = rt.stdout();
    let done = standard::take_steps(u64::MAX, || step(&mut reader, &mut writer));
    standard::ended(&rt, done)
}
