// Lends buffers of given lengths, filled with a pattern, to the solver, and writes the answer and what
// changed in each buffer: its first changed entry and how many changed, or `-`. The input holds, again
// and again, the six lengths as 2-byte little-endian numbers, the sheet's as a 4-byte one, and then the sheet.
#![tactic(auto)]

use std::io::{Read, Write};
use std::process::ExitCode;
use std::{array, io};

// No result has these values.
const FLOAT: f64 = 1234567.890625;

const BYTE: u8 = 255;

fn same_float(x: &f64) -> bool {
    patterns::pattern(*x) == patterns::pattern(FLOAT)
}

fn same_byte(x: &u8) -> bool {
    *x == BYTE
}

fn number<W: Write>(writer: &mut W, x: usize) -> io::Result<()> {
    standard::put(writer, b" ")?;
    standard::put_decimal(writer, x as u64)
}

// The first entry that changed and how many did, or `-`.
fn show<W: Write, T, F: Fn(&T) -> bool>(writer: &mut W, a: &[T], same: F) -> io::Result<()>
    requires { F.IsAlwaysCallable same }
{
    let Some(first) = a.iter().position(|x| !same(x)) else {
        return standard::put(writer, b" -");
    };
    number(writer, first)?;
    standard::put(writer, b"+")?;
    standard::put_decimal(writer, a.iter().filter(|x| !same(x)).count() as u64)
}

// Lends the first entries of each buffer, as many as the head says, or false where there are fewer.
fn run<W: Write>(writer: &mut W, sheet: &[u8], head: &[u8; 16]) -> io::Result<bool> {
    let [h, d, q, s, e, x]: [usize; 6] = array::from_fn(|i| patterns::two_bytes(
        head,
        2 * i,
    ) as usize);
    let mut heads = [FLOAT; 80];
    let mut demands = [FLOAT; 80];
    let mut flows = [FLOAT; 160];
    let mut statuses = [BYTE; 160];
    let mut entries = [BYTE; 1000];
    let mut scratch = [FLOAT; 4200];
    let (Some(h), Some(d), Some(q), Some(s), Some(e), Some(x)) = (
        heads.get_mut(..h),
        demands.get_mut(..d),
        flows.get_mut(..q),
        statuses.get_mut(..s),
        entries.get_mut(..e),
        scratch.get_mut(..x),
    ) else {
        return Ok(false);
    };
    let a = solver::solve(sheet, h, d, q, s, e, x);
    standard::put(writer, b"A")?;
    for n in [a.number, a.place, a.trials, a.freed, a.grounded] {
        number(writer, n)?;
    }
    show(writer, &heads, same_float)?;
    show(writer, &demands, same_float)?;
    show(writer, &flows, same_float)?;
    show(writer, &statuses, same_byte)?;
    show(writer, &entries, same_byte)?;
    show(writer, &scratch, same_float)?;
    standard::put(writer, b"\n")?;
    Ok(true)
}

// One sheet, or false where there is none or its lengths are too large.
fn step<R: Read, W: Write>(reader: &mut R, writer: &mut W) -> io::Result<bool> {
    let mut head = [0u8; 16];
    let mut buffer = [0u8; 65536];
    let Some(size) = standard::next_sheet(reader, writer, &mut head, &mut buffer)? else {
        return Ok(false);
    };
    run(writer, &buffer[..size], &head)
}

fn main(rt: HostRuntime) -> ExitCode {
    let mut reader = rt.stdin();
    let mut writer = rt.stdout();
    let done = standard::take_steps(100000, || step(&mut reader, &mut writer));
    standard::ended(&rt, done)
}
