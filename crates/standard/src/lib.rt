// Standard input and output for the programs, generic over what is read and what is written. A read that fails is an
// error and never the end of the input, and so is a write that fails. Nothing is written behind it, and `ended` says it in
// one line on standard error and gives status 1. The numbers that stand before a sheet are read here too.
#![tactic(auto)]

ghost use Rattle.std.specs.Prelude.{◌+◌, ◌^◌, ◌<◌, ◌≤◌, ◌≡◌, length, take, drop, decimal, IfOk, IfErr, OnOk, OnErr, IfSome, IsNone};
ghost use Rattle.std.specs.Counts.{IsPrefixLen};
ghost use Rattle.std.specs.Process.{exit_status};
ghost use Rattle.std.specs.Float.{binary64};
ghost use Rattle.std.specs.Float.Ieee.{to_bits};
ghost use Rattle.std.specs.Io.KnownBytes.{Appends, Consumes, IsAtEnd, Keeps};
ghost use Rattle.patterns.specs.Bytes.{little_endian};
ghost use Rattle.words.specs.Digits.{hex_of};
ghost use Rattle.text.specs.Lines.{answer_line};
ghost use Rattle.verdict_line.specs.Line.{verdict_line};
ghost use Rattle.standard.specs.Standard.{item_of, limits_of};
ghost use Rattle.standard.specs.Steps.{Done, Failed};

use std::io;
use std::io::{Eprint, Error, Read, Write};
use std::process::ExitCode;
use tolerance::Limits;

fn no_input() -> Error {
    Error::other("standard input cannot be read")
}

fn no_output() -> Error {
    Error::other("standard output cannot be written")
}

// One read: how many bytes it put at the buffer's start, 0 only at the end of the input or where there is no room.
fn read_once<R: Read>(reader: &mut R, buffer: &mut [u8]) -> io::Result<usize>
    ensures count { IfOk result (λ n. n ≤ length buffer.new) }
    ensures bytes { IfOk result (λ n. Consumes (R.remaining reader.old) (R.remaining reader.new) (take n buffer.new)) }
    ensures end { IfOk result (λ n. n ≡ 0 → 0 < length buffer.new → IsAtEnd (R.remaining reader.new)) }
    ensures err { OnErr result (Keeps (R.remaining reader.old) (R.remaining reader.new)) }
{
    match reader.read(buffer) {
        Ok(n) => Ok(n),
        Err(_) => Err(no_input()),
    }
}

// The same from an index on.
fn read_on<R: Read>(reader: &mut R, buffer: &mut [u8], from: usize) -> io::Result<usize>
    requires { from ≤ length buffer.old }
    ensures front { take from buffer.new ≡ take from buffer.old }
    ensures count { IfOk result (λ n. from + n ≤ length buffer.new) }
    ensures bytes { IfOk result (λ n. Consumes (R.remaining reader.old) (R.remaining reader.new) (take n (drop from buffer.new))) }
    ensures end { IfOk result (λ n. n ≡ 0 → from < length buffer.new → IsAtEnd (R.remaining reader.new)) }
    ensures err { OnErr result (Keeps (R.remaining reader.old) (R.remaining reader.new)) }
{
    read_once(reader, &mut buffer[from..])
}

// Bytes of the input until the buffer is full, the input ends or a read fails.
pub fn fill<R: Read>(reader: &mut R, buffer: &mut [u8]) -> io::Result<usize>
    ensures count { IfOk result (λ n. IsPrefixLen n buffer.new) }
    ensures bytes { IfOk result (λ n. Consumes (R.remaining reader.old) (R.remaining reader.new) (take n buffer.new)) }
    ensures end { IfOk result (λ n. n < length buffer.new → IsAtEnd (R.remaining reader.new)) }
{
    let mut done: usize = 0;
    while done < buffer.len() {
        let more = read_on(reader, buffer, done)?;
        if more == 0 {
            return Ok(done);
        }
        done += more;
    }
    Ok(done)
}

// Writes all of the bytes, or fails.
pub fn put<W: Write>(writer: &mut W, bytes: &[u8]) -> io::Result<()>
    ensures { OnOk result (Appends (W.contents writer.old) (W.contents writer.new) bytes.now) }
{
    match writer.write_all(bytes) {
        Ok(()) => Ok(()),
        Err(_) => Err(no_output()),
    }
}

// Writes a number's decimal digits.
pub fn put_decimal<W: Write>(writer: &mut W, n: u64) -> io::Result<()>
    ensures { OnOk result (Appends (W.contents writer.old) (W.contents writer.new) (decimal n)) }
{
    match write!(writer, "{n}") {
        Ok(()) => Ok(()),
        Err(_) => Err(no_output()),
    }
}

// Writes a float's bit pattern as 16 hex digits.
pub fn put_float<W: Write>(writer: &mut W, x: f64) -> io::Result<()>
    ensures { OnOk result (Appends (W.contents writer.old) (W.contents writer.new) (hex_of (to_bits binary64 x))) }
{
    let mut out = [0u8; 17];
    words::put_float(x, &mut out, 0);
    put(writer, &out[1..])
}

// Writes the first n bytes of a buffer, and a line `--` behind them.
pub fn put_item<W: Write>(writer: &mut W, out: &mut [u8], n: usize) -> io::Result<()>
    requires { n + 3 ≤ length out.old }
    ensures item { out.new ≡ item_of out.old n }
    ensures bytes { OnOk result (Appends (W.contents writer.old) (W.contents writer.new) (take (n + 3) out.new)) }
{
    out[n] = b'-';
    out[n + 1] = b'-';
    out[n + 2] = b'\n';
    let end = n + 3;
    put(writer, &out[..end])
}

// Writes the line of a verdict: its number and place.
pub fn put_verdict<W: Write>(writer: &mut W, number: usize, place: usize) -> io::Result<()>
    ensures { OnOk result (Appends (W.contents writer.old) (W.contents writer.new) (verdict_line number place)) }
{
    let mut out = [0u8; 64];
    let n = verdict_line::verdict_line(number, place, &mut out, 0);
    put(writer, &out[..n])
}

// Writes the line of a refusal, which has neither trials nor freed valves nor grounded nodes.
pub fn put_refusal<W: Write>(writer: &mut W, number: usize, place: usize) -> io::Result<()>
    ensures { OnOk result (Appends (W.contents writer.old) (W.contents writer.new) (answer_line number place 0 0 0)) }
{
    let mut out = [0u8; 128];
    let n = text::answer_line(number, place, 0, 0, 0, &mut out, 0);
    put(writer, &out[..n])
}

// The number of four bytes from an index on, the lowest byte first.
pub fn four_bytes(s: &[u8], at: usize) -> u64
    requires { at + 4 ≤ length s.now }
    ensures { (result ≡ little_endian 4 s.now at) × (result < 2 ^ 32) }
{
    patterns::two_bytes(s, at) + patterns::two_bytes(s, at + 2) * 0x1_0000
}

// The limits of a sale, which stand at a head's start: the lowest pressure, head and flow as f64s.
pub fn limits_in(head: &[u8]) -> Limits
    requires { 24 ≤ length head.now }
    ensures { result ≡ limits_of head.now }
{
    Limits {
        pressure: patterns::from_bytes(head, 0),
        head: patterns::from_bytes(head, 8),
        flow: patterns::from_bytes(head, 16),
    }
}

// A length above the buffer's, or an input that is cut: a line `X`, which is the last.
fn cut<W: Write>(writer: &mut W) -> io::Result<Option<usize>>
    ensures { IfOk result IsNone }
{
    put(writer, b"X\n")?;
    Ok(None)
}

// The next head, and the sheet behind it: its length, which is the number of the head's last four bytes, where all of
// it was read.
pub fn next_sheet<R: Read, W: Write>(
    reader: &mut R,
    writer: &mut W,
    head: &mut [u8],
    buffer: &mut [u8],
) -> io::Result<Option<usize>>
    requires { 4 ≤ length head.old }
    ensures { IfOk result (λ next. IfSome next (λ size. IsPrefixLen size buffer.new)) }
{
    let first = fill(reader, head)?;
    if first == 0 {
        return Ok(None);
    }
    if first < head.len() {
        return cut(writer);
    }
    let size = four_bytes(head, head.len() - 4) as usize;
    if buffer.len() < size {
        return cut(writer);
    }
    let rest = fill(reader, &mut buffer[..size])?;
    if rest < size {
        return cut(writer);
    }
    Ok(Some(size))
}

// One step behind the other, until one says that it was the last or fails, and at most so many.
pub fn take_steps<F: FnMut() -> io::Result<bool>>(most: u64, mut step: F) -> io::Result<()>
    requires { F.IsAlwaysCallable step }
    ensures done { OnOk result (Done F.step most step) }
    ensures failed { IfErr result (λ e. Failed F.step most step e) }
{
    for _ in 0..most {
        if !step()? {
            return Ok(());
        }
    }
    Ok(())
}

// How a program ends: well, or with the failure in one line on standard error and status 1.
pub fn ended<E: Eprint>(rt: &E, done: io::Result<()>) -> ExitCode
    ensures well { OnOk done (exit_status result ≡ 0) }
    ensures failed { OnErr done (exit_status result ≡ 1) }
{
    match done {
        Ok(()) => ExitCode::SUCCESS,
        Err(e) => {
            let _ = rt.eprintln(e);
            ExitCode::FAILURE
        }
    }
}
