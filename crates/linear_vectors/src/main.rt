// Replays systems over crates linear and substitution. On standard input, for each: a byte n, the
// lower triangle by columns, the right side. For each it writes n, the triangle as the factorization
// left it, a line a column, and then X with the solution or S with the unknown at which it stopped.
#![tactic(auto)]

ghost use Rattle.std.specs.Prelude.{◌≤◌};

use std::io;
use std::io::{Read, Write};
use std::process::ExitCode;

fn read<R: Read>(reader: &mut R, part: &mut [f64]) -> io::Result<()> {
    for x in part {
        let mut bytes = [0u8; 8];
        standard::fill(reader, &mut bytes)?;
        *x = patterns::from_bytes(&bytes, 0);
    }
    Ok(())
}

fn write<W: Write>(writer: &mut W, mark: &[u8], part: &[f64]) -> io::Result<()> {
    standard::put(writer, mark)?;
    for x in part {
        standard::put(writer, b" ")?;
        standard::put_float(writer, *x)?;
    }
    standard::put(writer, b"\n")
}

fn read_matrix<R: Read>(reader: &mut R, a: &mut [f64; 4096], n: usize) -> io::Result<()>
    requires { n ≤ 64 }
{
    for c in 0..n {
        read(reader, &mut a[64 * c + c..64 * c + n])?;
    }
    Ok(())
}

fn write_matrix<W: Write>(writer: &mut W, a: &[f64; 4096], n: usize) -> io::Result<()>
    requires { n ≤ 64 }
{
    for c in 0..n {
        write(writer, b"L", &a[64 * c + c..64 * c + n])?;
    }
    Ok(())
}

fn answer<R: Read, W: Write>(reader: &mut R, writer: &mut W, n: usize) -> io::Result<()>
    requires { n ≤ 64 }
{
    let mut a = [0.0; 4096];
    let mut x = [0.0; 64];
    read_matrix(reader, &mut a, n)?;
    read(reader, &mut x[..n])?;
    let found = linear::factor(&mut a, n);
    standard::put_decimal(writer, n as u64)?;
    standard::put(writer, b"\n")?;
    write_matrix(writer, &a, n)?;
    match found {
        Ok(()) => {
            substitution::substitute(&a, n, &mut x);
            write(writer, b"X", &x[..n])
        }
        Err(c) => {
            standard::put(writer, b"S ")?;
            standard::put_decimal(writer, c.0 as u64)?;
            standard::put(writer, b"\n")
        }
    }
}

// One system, or false where the input has ended.
fn step<R: Read, W: Write>(reader: &mut R, writer: &mut W) -> io::Result<bool> {
    let mut size = [0u8; 1];
    if standard::fill(reader, &mut size)? < 1 {
        return Ok(false);
    }
    let n = usize::from(size[0]);
    if n > 64 {
        return Ok(false);
    }
    answer(reader, writer, n)?;
    Ok(true)
}

fn main(rt: HostRuntime) -> ExitCode {
    let mut reader = rt.stdin();
    let mut writer = rt.stdout();
    let done = standard::take_steps(100000, || step(&mut reader, &mut writer));
    standard::ended(&rt, done)
}
