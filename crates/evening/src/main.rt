// Reads evenings and solves each in one call: the number of rows, the length of the sheet and the sheet,
// then the number of the table's entries and the entries as f64s; the three numbers are of 4 bytes, and
// all is little-endian. Writes for each row a line `R row` and the row's listing, or the one `A` line of
// a call that was refused; then a line `--`. A length above 65,536, more than 4,096 entries or an input
// that is cut gives a line `X` and is the last.
#![tactic(auto)]

use std::io;
use std::io::{Read, Write};
use std::process::ExitCode;

// One evening, or false where the input has ended or is not in this form.
fn step<R: Read, W: Write>(reader: &mut R, writer: &mut W) -> io::Result<bool> {
    let mut head = [0u8; 8];
    let mut buffer = [0u8; 65536];
    let Some(size) = standard::next_sheet(reader, writer, &mut head, &mut buffer)? else {
        return Ok(false);
    };
    let rows = standard::four_bytes(&head, 0) as usize;
    rows_out::show_rows(reader, writer, &buffer[..size], None, rows)
}

fn main(rt: HostRuntime) -> ExitCode {
    let mut reader = rt.stdin();
    let mut writer = rt.stdout();
    let done = standard::take_steps(u64::MAX, || step(&mut reader, &mut writer));
    standard::ended(&rt, done)
}
