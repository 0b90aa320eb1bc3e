// Replays vectors over crate power: f64s x of eight bytes on standard input, and for each a line with x, x^0.852, x^0.871 and
// x^4 times x^0.871, as 16 hex digits.
#![tactic(auto)]

use power::{PowerTable, PowerTable871};
use std::io;
use std::io::{Read, Write};
use std::process::ExitCode;

// One f64, or false where the input has ended.
fn step<R: Read, W: Write>(
    reader: &mut R,
    writer: &mut W,
    table: &PowerTable,
    table_871: &PowerTable871,
) -> io::Result<bool> {
    let mut record = [0u8; 8];
    let n = standard::fill(reader, &mut record)?;
    if n < 8 {
        return Ok(false);
    }
    let x = patterns::from_bytes(&record, 0);
    let p = power::power_871(x, table_871);
    standard::put_float(writer, x)?;
    for y in [power::power(x, table), p, float::whole_power(x, 4) * p] {
        standard::put(writer, b" ")?;
        standard::put_float(writer, y)?;
    }
    standard::put(writer, b"\n")?;
    Ok(true)
}

fn main(rt: HostRuntime) -> ExitCode {
    let mut reader = rt.stdin();
    let mut writer = rt.stdout();
    let table = power::power_table();
    let table_871 = power::power_table_871();
    let done = standard::take_steps(
        100000,
        || step(&mut reader, &mut writer, &table, &table_871),
    );
    standard::ended(&rt, done)
}
