// Reads sheets and writes their listings as `replay` does, one trial at a time; then takes one trial
// more, which must tell the same and change nothing: where it does not, a line `X` comes first.
#![tactic(auto)]

use answers::Answer;
use held::{Taken, Told};
use std::io;
use std::io::{Read, Write};
use std::process::ExitCode;

// What is held between two trials.
#[derive(Clone, Copy)]
struct Held {
    h: [f64; 64],
    d: [f64; 64],
    f: [f64; 64],
    q: [f64; 128],
    c: [u8; 128],
    z: [u8; 64],
    sums: [f64; 5],
    counts: [u64; 6],
}

// The buffers that are lent.
#[derive(Clone, Copy)]
struct Lent {
    heads: [f64; 64],
    demands: [f64; 64],
    flows: [f64; 128],
    statuses: [u8; 128],
    entries: [u8; 800],
    scratch: [f64; 4096],
}

// Floats are the same where their bit patterns are.
fn same<const N: usize>(a: &[f64; N], b: &[f64; N]) -> bool {
    a.iter()
        .zip(b)
        .all(|(x, y)| patterns::pattern(*x) == patterns::pattern(*y))
}

impl Held {
    fn same(&self, other: &Held) -> bool {
        same(&self.h, &other.h)
            && same(&self.d, &other.d)
            && same(&self.f, &other.f)
            && same(&self.q, &other.q)
            && self.c == other.c
            && self.z == other.z
            && same(&self.sums, &other.sums)
            && self.counts == other.counts
    }
}

impl Lent {
    fn same(&self, other: &Lent) -> bool {
        same(&self.heads, &other.heads)
            && same(&self.demands, &other.demands)
            && same(&self.flows, &other.flows)
            && self.statuses == other.statuses
            && self.entries == other.entries
            && same(&self.scratch, &other.scratch)
    }
}

fn same_answer(a: Answer, b: Answer) -> bool {
    [a.number, a.place, a.trials, a.freed, a.grounded]
        == [b.number, b.place, b.trials, b.freed, b.grounded]
        && same(
            &[a.demand, a.supply, a.error],
            &[b.demand, b.supply, b.error],
        )
}

fn start(sheet: &[u8], held: &mut Held) -> Taken {
    held_start::start(
        sheet,
        &mut held.h,
        &mut held.d,
        &mut held.f,
        &mut held.q,
        &mut held.c,
        &mut held.z,
        &mut held.sums,
        &mut held.counts,
    )
}

fn take(sheet: &[u8], held: &mut Held, lent: &mut Lent) -> Taken {
    stepping::take(
        sheet,
        &mut held.h,
        &mut held.d,
        &mut held.f,
        &mut held.q,
        &mut held.c,
        &mut held.z,
        &mut held.sums,
        &mut held.counts,
        &mut lent.heads,
        &mut lent.demands,
        &mut lent.flows,
        &mut lent.statuses,
        &mut lent.entries,
        &mut lent.scratch,
    )
}

// Trials until one tells something else than that more are to be taken.
fn until_told(sheet: &[u8], held: &mut Held, lent: &mut Lent) -> Taken {
    let mut told = start(sheet, held);
    for _ in 0..1000 {
        if told.how != Told::More {
            break;
        }
        told = take(sheet, held, lent);
    }
    told
}

// Whether one trial more tells the same and leaves all as it was.
fn stays(sheet: &[u8], told: Taken, held: &mut Held, lent: &mut Lent) -> bool {
    let held_before = *held;
    let lent_before = *lent;
    let again = take(sheet, held, lent);
    again.how == told.how
        && same_answer(again.answer, told.answer)
        && held.same(&held_before)
        && lent.same(&lent_before)
}

// The listing of an answer and of what was lent after it.
fn list<W: Write>(writer: &mut W, sheet: &[u8], a: Answer, lent: &Lent) -> io::Result<()> {
    if 200 < a.trials {
        return standard::put(writer, b"X\n");
    }
    let mut out = [0u8; 65536];
    let n = listing_text::tell(
        sheet,
        a,
        &lent.heads,
        &lent.demands,
        &lent.flows,
        &lent.statuses,
        &lent.entries,
        &mut out,
    );
    standard::put_item(writer, &mut out, n)
}

fn show<W: Write>(writer: &mut W, sheet: &[u8]) -> io::Result<()> {
    let mut held = Held {
        h: [0.0; 64],
        d: [0.0; 64],
        f: [0.0; 64],
        q: [0.0; 128],
        c: [0; 128],
        z: [0; 64],
        sums: [0.0; 5],
        counts: [0; 6],
    };
    let mut lent = Lent {
        heads: [0.0; 64],
        demands: [0.0; 64],
        flows: [0.0; 128],
        statuses: [0; 128],
        entries: [0; 800],
        scratch: [0.0; 4096],
    };
    let told = until_told(sheet, &mut held, &mut lent);
    if !stays(sheet, told, &mut held, &mut lent) {
        standard::put(writer, b"X\n")?;
    }
    list(writer, sheet, told.answer, &lent)
}

// One sheet, or false where there is none.
fn step<R: Read, W: Write>(reader: &mut R, writer: &mut W) -> io::Result<bool> {
    let mut head = [0u8; 4];
    let mut buffer = [0u8; 65536];
    let Some(size) = standard::next_sheet(reader, writer, &mut head, &mut buffer)? else {
        return Ok(false);
    };
    show(writer, &buffer[..size])?;
    Ok(true)
}

fn main(rt: HostRuntime) -> ExitCode {
    let mut reader = rt.stdin();
    let mut writer = rt.stdout();
    let done = standard::take_steps(u64::MAX, || step(&mut reader, &mut writer));
    standard::ended(&rt, done)
}
