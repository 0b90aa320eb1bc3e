// Reads a network sheet from standard input and writes its listing (document 01, "The listing
// program"). A sheet of 65,536 bytes or more is longer than any good one: it is read to its end in
// parts, and gets refusal 1 or 2.
#![tactic(auto)]

ghost use Rattle.std.specs.Prelude.{◌≤◌, length};
ghost use Rattle.stream.specs.Stream.{count_of};

use std::io;
use std::io::{Read, Write};
use std::process::ExitCode;
use stream::Progress;

fn show<W: Write>(writer: &mut W, sheet: &[u8]) -> io::Result<()> {
    let mut out = [0u8; 65536];
    let n = listing_text::compose(sheet, &mut out);
    standard::put(writer, &out[..n])
}

fn show_long<W: Write>(writer: &mut W, p: Progress) -> io::Result<()>
    requires { count_of p ≤ 144115188075855872 }
{
    let mut out = [0u8; 4096];
    let n = stream::line(stream::refusal(p), &mut out);
    standard::put(writer, &out[..n])
}

// The rest of a long sheet, whose first bytes fill the buffer.
fn read_long<R: Read, W: Write>(reader: &mut R, writer: &mut W, buffer: &mut [u8]) -> io::Result<()>
    requires { length buffer.old ≤ 65536 }
{
    let mut p = stream::feed(Progress::Options(0), buffer);
    for turn in 0..1099511627775u64 {
        let n = standard::fill(reader, buffer)?;
        if n == 0 {
            break;
        }
        p = stream::feed(p, &buffer[..n]);
    }
    show_long(writer, p)
}

fn run(rt: &HostRuntime) -> io::Result<()> {
    let mut reader = rt.stdin();
    let mut writer = rt.stdout();
    let mut buffer = [0u8; 65536];
    let n = standard::fill(&mut reader, &mut buffer)?;
    if n < 65536 {
        show(&mut writer, &buffer[..n])
    } else {
        read_long(&mut reader, &mut writer, &mut buffer)
    }
}

fn main(rt: HostRuntime) -> ExitCode {
    let done = run(&rt);
    standard::ended(&rt, done)
}
