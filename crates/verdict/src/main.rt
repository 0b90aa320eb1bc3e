// Reads, for each sheet, its limits (lowest pressure, head and flow as f64s, 24 bytes) and then the sheet
// behind its length as a 4-byte little-endian number, and writes the verdict as a line `V number place`,
// the listing, and a line `--`. A length above 65,536 or an input that is cut gives a line `X` and is the
// last.
#![tactic(auto)]

use std::io;
use std::io::{Read, Write};
use std::process::ExitCode;
use tolerance::Limits;

fn judge<W: Write>(writer: &mut W, sheet: &[u8], limits: Limits) -> io::Result<()> {
    let mut heads = [0.0f64; 64];
    let mut demands = [0.0f64; 64];
    let mut flows = [0.0f64; 128];
    let mut statuses = [0u8; 128];
    let mut entries = [0u8; 800];
    let mut scratch = [0.0f64; 4096];
    let s = sale::sell(
        sheet,
        limits,
        &mut heads,
        &mut demands,
        &mut flows,
        &mut statuses,
        &mut entries,
        &mut scratch,
    );
    standard::put_verdict(writer, s.verdict.number, s.verdict.place)
}

fn list<W: Write>(writer: &mut W, sheet: &[u8]) -> io::Result<()> {
    let mut out = [0u8; 65536];
    let n = listing_text::compose(sheet, &mut out);
    standard::put_item(writer, &mut out, n)
}

// One sheet with its limits, or false where there is none.
fn step<R: Read, W: Write>(reader: &mut R, writer: &mut W) -> io::Result<bool> {
    let mut head = [0u8; 28];
    let mut buffer = [0u8; 65536];
    let Some(size) = standard::next_sheet(reader, writer, &mut head, &mut buffer)? else {
        return Ok(false);
    };
    let sheet = &buffer[..size];
    judge(writer, sheet, standard::limits_in(&head))?;
    list(writer, sheet)?;
    Ok(true)
}

fn main(rt: HostRuntime) -> ExitCode {
    let mut reader = rt.stdin();
    let mut writer = rt.stdout();
    let done = standard::take_steps(u64::MAX, || step(&mut reader, &mut writer));
    standard::ended(&rt, done)
}
