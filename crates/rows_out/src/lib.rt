// An evening's rows, written to standard output: for each a line `R row`, with limits the line `V number place`
// of its verdict, and its listing; or the one `A` line of a call that was refused; then a line `--`.
#![tactic(auto)]

ghost use Rattle.std.specs.Prelude.{◌≡◌, ◌*◌, ◌≤◌, ◌<◌, length};

use answers::Answer;
use std::io;
use std::io::{Read, Write};
use tolerance::Limits;

// How many nodes and links a sheet has, and trials at most.
#[derive(Clone, Copy)]
struct Sizes {
    nodes: usize,
    links: usize,
    trials: usize,
    ghost few: { (nodes ≤ 64) × (links ≤ 128) × (trials ≤ 200) },
}

// The rows' results, one row behind the other, with room for 32 rows of any sheet.
#[derive(Clone, Copy)]
struct Results {
    heads: [f64; 2048],
    demands: [f64; 2048],
    flows: [f64; 4096],
    statuses: [u8; 4096],
    entries: [u8; 25600],
    counts: [u64; 224],
    totals: [f64; 96],
}

// Too little was read, or too much was announced: a line `X`, which is the last.
fn refuse<W: Write>(writer: &mut W) -> io::Result<bool> {
    standard::put(writer, b"X\n")?;
    Ok(false)
}

fn tell_number<W: Write>(writer: &mut W, r: usize) -> io::Result<()> {
    let mut out = [0u8; 64];
    out[0] = b'R';
    let p = words::put_number(r, &mut out, 1);
    out[p] = b'\n';
    standard::put(writer, &out[..p + 1])
}

// A row's answer, from its counts and totals.
fn answer_of(counts: &[u64], totals: &[f64]) -> Answer
    requires { (7 ≤ length counts.now) × (3 ≤ length totals.now) }
{
    Answer {
        number: counts[0] as usize,
        place: counts[1] as usize,
        trials: counts[2] as usize,
        freed: counts[3] as usize,
        grounded: counts[4] as usize,
        demand: totals[0],
        supply: totals[1],
        error: totals[2],
    }
}

fn sizes_of(sheet: &[u8]) -> Option<Sizes> {
    match sheet::read(sheet) {
        Ok(l) => {
            if sheet.len() < 29 {
                return None;
            }
            let options = records::options_of(sheet);
            let trials = options.trials;
            if 64 < l.nodes || 128 < l.links || 200 < trials {
                return None;
            }
            Some(Sizes {
                nodes: l.nodes,
                links: l.links,
                trials,
            })
        }
        Err(_) => None,
    }
}

// So many entries of a buffer, from where row r starts: each row before it took so many of them.
fn row_of<T>(buffer: &[T], r: usize, each: usize, room: usize) -> &[T]
    requires { (r < 32) × (each ≤ room) × (32 * room ≤ length buffer.now) }
    ensures { length result.now ≡ room }
{
    let at = r * each;
    &buffer[at..at + room]
}

impl Results {
    fn tell_row<W: Write>(
        &self,
        writer: &mut W,
        sheet: &[u8],
        s: Sizes,
        judged: bool,
        r: usize,
        out: &mut [u8; 65536],
    ) -> io::Result<()>
        requires { r < 32 }
    {
        let counts = row_of(&self.counts, r, if judged { 7 } else { 5 }, 7);
        tell_number(writer, r)?;
        if judged {
            standard::put_verdict(writer, counts[5] as usize, counts[6] as usize)?;
        }
        let a = answer_of(counts, row_of(&self.totals, r, 3, 3));
        if 200 < a.trials {
            return Ok(());
        }
        let n = listing_text::tell(
            sheet,
            a,
            row_of(&self.heads, r, s.nodes, 64),
            row_of(&self.demands, r, s.nodes, 64),
            row_of(&self.flows, r, s.links, 128),
            row_of(&self.statuses, r, s.links, 128),
            row_of(&self.entries, r, 4 * s.trials, 800),
            out,
        );
        standard::put(writer, &out[..n])
    }

    fn tell<W: Write>(
        &self,
        writer: &mut W,
        sheet: &[u8],
        judged: bool,
        rows: usize,
    ) -> io::Result<()> {
        let Some(s) = sizes_of(sheet) else {
            return Ok(());
        };
        if 32 < rows {
            return Ok(());
        }
        let mut out = [0u8; 65536];
        for r in 0..rows {
            self.tell_row(writer, sheet, s, judged, r, &mut out)?;
        }
        Ok(())
    }
}

// One evening, solved and told.
fn show<W: Write>(
    writer: &mut W,
    sheet: &[u8],
    judging: Option<Limits>,
    rows: usize,
    table: &[f64],
) -> io::Result<()> {
    let mut results = Results {
        heads: [0.0; 2048],
        demands: [0.0; 2048],
        flows: [0.0; 4096],
        statuses: [0; 4096],
        entries: [0; 25600],
        counts: [0; 224],
        totals: [0.0; 96],
    };
    let mut scratch = [0.0f64; 4096];
    let called = rowwise::solve_evening(
        sheet,
        judging,
        rows,
        table,
        &mut results.heads,
        &mut results.demands,
        &mut results.flows,
        &mut results.statuses,
        &mut results.entries,
        &mut results.counts,
        &mut results.totals,
        &mut scratch,
    );
    if called.number != 0 {
        return standard::put_refusal(writer, called.number, called.place);
    }
    results.tell(writer, sheet, judging.is_some(), rows)
}

// Reads the table behind an evening's sheet, the number of its entries first and then the entries as f64s, solves
// the evening in one call and writes what comes out. False where the input has ended, is cut or has more than
// 4,096 entries; the latter two give a line `X`.
pub fn show_rows<R: Read, W: Write>(
    reader: &mut R,
    writer: &mut W,
    sheet: &[u8],
    judging: Option<Limits>,
    rows: usize,
) -> io::Result<bool> {
    let mut head = [0u8; 4];
    if standard::fill(reader, &mut head)? < 4 {
        return refuse(writer);
    }
    let count = standard::four_bytes(&head, 0) as usize;
    if 4096 < count {
        return refuse(writer);
    }
    let mut bytes = [0u8; 32768];
    if standard::fill(reader, &mut bytes[..8 * count])? < 8 * count {
        return refuse(writer);
    }
    let mut table = [0.0f64; 4096];
    for i in 0..count {
        table[i] = patterns::from_bytes(&bytes, 8 * i);
    }
    show(writer, sheet, judging, rows, &table[..count])?;
    standard::put(writer, b"--\n")?;
    Ok(true)
}
