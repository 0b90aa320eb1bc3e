// Replays vectors over crate decimals: records of ten bytes on standard input, the digits as a number of eight bytes, 1 where they
// are divided by the power of ten, and the power; and for each a line with the pattern of the f64, as 16 hex digits. A record out of range gives an empty line.
#![tactic(auto)]

use std::io;
use std::io::{Read, Write};
use std::process::ExitCode;

fn answer<W: Write>(writer: &mut W, record: [u8; 10]) -> io::Result<()> {
    let high = standard::four_bytes(&record, 4);
    let digits = standard::four_bytes(&record, 0) + high * 0x1_0000_0000;
    let negative = record[8] == 1;
    let size = u64::from(record[9]);
    let most = if negative { 37 } else { 20 };
    if digits < 100_000_000_000_000_000 && size <= most {
        standard::put_float(writer, decimals::decimal(digits, negative, size))?;
    }
    standard::put(writer, b"\n")
}

// One record, or false where the input has ended.
fn step<R: Read, W: Write>(reader: &mut R, writer: &mut W) -> io::Result<bool> {
    let mut record = [0u8; 10];
    let n = standard::fill(reader, &mut record)?;
    if n < 10 {
        return Ok(false);
    }
    answer(writer, record)?;
    Ok(true)
}

fn main(rt: HostRuntime) -> ExitCode {
    let mut reader = rt.stdin();
    let mut writer = rt.stdout();
    let done = standard::take_steps(1000000, || step(&mut reader, &mut writer));
    standard::ended(&rt, done)
}
