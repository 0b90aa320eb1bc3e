// Replays vectors over crates float and roots: records of 25 bytes on standard input, a function's
// number and three numbers of eight bytes, and for each a line with the function's name, its
// arguments and what it gave, floats as 16 hex digits.
#![tactic(auto)]

use std::io::{Read, Write};
use std::process::ExitCode;
use std::{array, io};

// A name, the floats of a call, and what it gave.
fn line<W: Write>(writer: &mut W, name: &[u8], floats: &[f64], gave: f64) -> io::Result<()> {
    standard::put(writer, name)?;
    for x in floats.iter().chain(&[gave]) {
        standard::put(writer, b" ")?;
        standard::put_float(writer, *x)?;
    }
    standard::put(writer, b"\n")
}

fn answer<W: Write>(writer: &mut W, record: [u8; 25]) -> io::Result<()> {
    let n = record[9];
    let [x, y, z]: [f64; 3] = array::from_fn(|i| patterns::from_bytes(&record, 1 + 8 * i));
    match record[0] {
        0 => line(writer, b"root", &[x], roots::root(x)),
        1 => line(writer, b"abs", &[x], float::abs(x)),
        2 => line(writer, b"signum", &[x], float::signum(x)),
        3 => line(writer, b"larger", &[x, y], float::larger(x, y)),
        4 => line(writer, b"smaller", &[x, y], float::smaller(x, y)),
        5 => line(writer, b"clamp", &[x, y, z], float::clamp(x, y, z)),
        6 => line(
            writer,
            b"wild",
            &[x],
            if float::wild(x) { 1.0 } else { 0.0 },
        ),
        7 => {
            standard::put(writer, b"whole_power ")?;
            standard::put_decimal(writer, u64::from(n))?;
            line(writer, b"", &[x], float::whole_power(x, u32::from(n)))
        }
        _ => line(writer, b"pattern", &[x], x),
    }
}

// One record, or false where the input has ended.
fn step<R: Read, W: Write>(reader: &mut R, writer: &mut W) -> io::Result<bool> {
    let mut record = [0u8; 25];
    let n = standard::fill(reader, &mut record)?;
    if n < 25 {
        return Ok(false);
    }
    answer(writer, record)?;
    Ok(true)
}

fn main(rt: HostRuntime) -> ExitCode {
    let mut reader = rt.stdin();
    let mut writer = rt.stdout();
    let done = standard::take_steps(100000, || step(&mut reader, &mut writer));
    standard::ended(&rt, done)
}
