// Replays vectors over crate model: records of 76 bytes on standard input, four small numbers and
// nine f64s, and for each a line with what the function named by the first number gave. Floats are
// 16 hex digits, `-` stands for an absent part.
#![tactic(auto)]

use coefficient::{Coefficients, NodeAddition};
use power::PowerTable;
use records::{Link, LinkKind, Status};
use status::Change;
use std::io::{Read, Write};
use std::process::ExitCode;
use std::{array, io};

// What a record holds: codes and flags, and the floats in order.
#[derive(Clone, Copy)]
struct Case {
    what: u8,
    kind: u8,
    flag: u8,
    code: u8,
    x: [f64; 9],
}

fn case_of(record: [u8; 76]) -> Case {
    Case {
        what: record[0],
        kind: record[1],
        flag: record[2],
        code: record[3],
        x: array::from_fn(|i| patterns::from_bytes(&record, 4 + 8 * i)),
    }
}

fn space<W: Write>(writer: &mut W) -> io::Result<()> {
    standard::put(writer, b" ")
}

fn addition<W: Write>(writer: &mut W, given: Option<NodeAddition>) -> io::Result<()> {
    if let Some(a) = given {
        standard::put_float(writer, a.diagonal)?;
        space(writer)?;
        return standard::put_float(writer, a.rhs);
    }
    standard::put(writer, b"- -")
}

fn print_coefficients<W: Write>(writer: &mut W, c: Coefficients) -> io::Result<()> {
    standard::put_float(writer, c.conductance)?;
    space(writer)?;
    standard::put_float(writer, c.offset)?;
    space(writer)?;
    addition(writer, c.upstream)?;
    space(writer)?;
    addition(writer, c.downstream)
}

fn print_change<W: Write>(writer: &mut W, change: Change) -> io::Result<()> {
    match change {
        None => standard::put(writer, b"-"),
        Some((status, cause)) => {
            standard::put_decimal(writer, u8::from(status) as u64)?;
            space(writer)?;
            standard::put_decimal(writer, causes::cause_code(cause) as u64)
        }
    }
}

// The record's status and flow are the solve's; the link has others, which must not be read.
fn link_of(c: Case) -> Link {
    Link {
        kind: LinkKind::from(c.kind),
        check: c.flag == 1,
        status: Status::from(0),
        start: 0,
        end: 0,
        setting: c.x[2],
        minor: c.x[3],
        diameter: c.x[4],
        resistance: c.x[1],
        flow: 0.0,
    }
}

fn status_case<W: Write>(writer: &mut W, c: Case) -> io::Result<()> {
    let change = status::updated(
        LinkKind::from(c.kind),
        Status::from(c.code),
        c.x[0],
        c.x[1],
        c.x[2],
        c.x[3],
        c.x[4],
        c.x[5],
    );
    print_change(writer, change)
}

fn converged_case<W: Write>(writer: &mut W, c: Case) -> io::Result<()> {
    let stops = damping::converged(c.x[0], c.x[1], c.flag == 1, c.x[2], c.code as usize, c.x[3]);
    standard::put(writer, if stops { b"1" } else { b"0" })
}

fn answer<W: Write>(writer: &mut W, c: Case, table: &PowerTable) -> io::Result<()> {
    match c.what {
        0 => {
            let coefficients = model::coefficients(
                link_of(c),
                Status::from(c.code),
                c.x[0],
                c.x[5],
                c.x[6],
                c.x[7],
                c.x[8],
                table,
            );
            print_coefficients(writer, coefficients)?;
        }
        1 => status_case(writer, c)?,
        2 => standard::put_float(writer, damping::damped(c.x[0], c.x[1], c.x[2], c.x[3]))?,
        3 => standard::put_float(writer, damping::relative_change(c.x[0], c.x[1], c.x[2]))?,
        _ => converged_case(writer, c)?,
    }
    standard::put(writer, b"\n")
}

// One record, or false where the input has ended.
fn step<R: Read, W: Write>(reader: &mut R, writer: &mut W, table: &PowerTable) -> io::Result<bool> {
    let mut record = [0u8; 76];
    let n = standard::fill(reader, &mut record)?;
    if n < 76 {
        return Ok(false);
    }
    answer(writer, case_of(record), table)?;
    Ok(true)
}

fn main(rt: HostRuntime) -> ExitCode {
    let mut reader = rt.stdin();
    let mut writer = rt.stdout();
    let table = power::power_table();
    let done = standard::take_steps(100000, || step(&mut reader, &mut writer, &table));
    standard::ended(&rt, done)
}
