// Reads an EPANET text of at most 2 MiB from standard input and writes the sheet and the names that are
// made of it, or its refusal (document 02, [1]). A longer text gives a line `X`.
#![tactic(auto)]

use std::io;
use std::process::ExitCode;

// Room for a text, and one byte more, which shows that it is too long.
fn room() -> [u8; 2097153] {
    [0u8; 2097153]
}

fn run(rt: &HostRuntime) -> io::Result<()> {
    let mut reader = rt.stdin();
    let mut writer = rt.stdout();
    let mut buffer = room();
    let n = standard::fill(&mut reader, &mut buffer)?;
    if n == 2097153 {
        return standard::put(&mut writer, b"X\n");
    }
    text_out::show(&mut writer, &buffer[..n])?;
    Ok(())
}

fn main(rt: HostRuntime) -> ExitCode {
    let done = run(&rt);
    standard::ended(&rt, done)
}
