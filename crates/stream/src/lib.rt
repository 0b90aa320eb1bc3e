// The layout of a sheet read byte by byte, for sheets too long to be held: such a sheet is longer
// than any good one, and only refusals 1 and 2 are possible.
#![tactic(auto)]

ghost use Rattle.std.specs.Prelude.{◌≡◌, ◌+◌, ◌≤◌, ◌<◌, length};
ghost use Rattle.words.specs.Buffer.{placed};
ghost use Rattle.stream.specs.Stream.{fits, in_links, in_nodes, at_nodes, in_pressures, at_pressures, in_options, step_of, fed_of, count_of, end_in_nodes, end_in_links, refusal_of, line_of};

use layout::heading;
use refusals::Refusal;

// What was read so far: whether a PD, how many whole nodes and links, and how many bytes of the
// next record. Once a record can't be read, its offset. Behind the OP, `Pressures` waits for a PD.
#[derive(Clone, Copy)]
pub enum Progress {
    Options(usize),
    Pressures(usize),
    Nodes(bool, usize, usize),
    Links(bool, usize, usize, usize),
    Stopped(usize),
}

fn fits(first: u8, second: u8, got: usize, b: u8) -> bool
    ensures { result ≡ fits first second got b }
{
    if got == 0 {
        return b == first;
    }
    if got == 1 {
        return b == second;
    }
    true
}

fn in_options(got: usize, b: u8) -> Progress
    ensures { result ≡ in_options got b }
{
    if fits(b'O', b'P', got, b) {
        if got < 28 {
            return Progress::Options(got + 1);
        }
        return Progress::Pressures(0);
    }
    Progress::Stopped(0)
}

fn in_pressures(got: usize, b: u8) -> Progress
    ensures { result ≡ in_pressures got b }
{
    if fits(b'P', b'D', got, b) {
        if got < 17 {
            return Progress::Pressures(got + 1);
        }
        return Progress::Nodes(true, 0, 0);
    }
    Progress::Stopped(29)
}

fn in_nodes(pressures: bool, n: usize, got: usize, b: u8) -> Progress
    requires { n < 144115188075855872 }
    ensures { result ≡ in_nodes pressures n got b }
{
    if fits(b'N', b'D', got, b) {
        if got < 44 {
            return Progress::Nodes(pressures, n, got + 1);
        }
        let whole = n + 1;
        return Progress::Nodes(pressures, whole, 0);
    }
    Progress::Stopped(heading(pressures) + 45 * n)
}

fn in_links(pressures: bool, n: usize, k: usize, got: usize, b: u8) -> Progress
    requires { n + k < 144115188075855872 }
    ensures { result ≡ in_links pressures n k got b }
{
    if fits(b'L', b'K', got, b) {
        if got < 48 {
            return Progress::Links(pressures, n, k, got + 1);
        }
        let whole = k + 1;
        return Progress::Links(pressures, n, whole, 0);
    }
    Progress::Stopped(heading(pressures) + 45 * n + 49 * k)
}

// A byte where nodes stand. An `L` where one could start is the first link's.
fn at_nodes(pressures: bool, n: usize, got: usize, b: u8) -> Progress
    requires { n < 144115188075855872 }
    ensures { result ≡ at_nodes pressures n got b }
{
    if (got == 0) & (b == b'L') {
        return in_links(pressures, n, 0, 0, b);
    }
    in_nodes(pressures, n, got, b)
}

// A byte where a PD may stand. Where none starts with it, it stands where nodes do.
fn at_pressures(got: usize, b: u8) -> Progress
    ensures { result ≡ at_pressures got b }
{
    if (0 < got) | (b == b'P') {
        return in_pressures(got, b);
    }
    at_nodes(false, 0, 0, b)
}

// One byte more.
pub fn step(p: Progress, b: u8) -> Progress
    requires { count_of p < 144115188075855872 }
    ensures { result ≡ step_of p b }
{
    match p {
        Progress::Options(got) => in_options(got, b),
        Progress::Pressures(got) => at_pressures(got, b),
        Progress::Nodes(pressures, n, got) => at_nodes(pressures, n, got, b),
        Progress::Links(pressures, n, k, got) => in_links(pressures, n, k, got, b),
        Progress::Stopped(at) => Progress::Stopped(at),
    }
}

// All bytes of a part of the sheet.
pub fn feed(p: Progress, bytes: &[u8]) -> Progress
    requires { count_of p + length bytes.now ≤ 144115188075855872 }
    ensures fed { result ≡ fed_of p bytes.now }
    ensures count { count_of result ≤ count_of p + length bytes.now }
{
    let mut q = p;
    for i in 0..bytes.len() {
        q = step(q, bytes[i]);
    }
    q
}

fn end_in_nodes(pressures: bool, n: usize, got: usize) -> Refusal
    requires { n ≤ 144115188075855872 }
    ensures { result ≡ end_in_nodes pressures n got }
{
    if got == 0 {
        return Refusal::NodeCount;
    }
    Refusal::Unreadable(heading(pressures) + 45 * n)
}

fn end_in_links(pressures: bool, n: usize, k: usize, got: usize) -> Refusal
    requires { n + k ≤ 144115188075855872 }
    ensures { result ≡ end_in_links pressures n k got }
{
    if got != 0 {
        return Refusal::Unreadable(heading(pressures) + 45 * n + 49 * k);
    }
    if (1 <= n) & (n <= 64) {
        return Refusal::LinkCount;
    }
    Refusal::NodeCount
}

// Why the sheet is refused, after its last byte, where it is longer than any good one.
pub fn refusal(p: Progress) -> Refusal
    requires { count_of p ≤ 144115188075855872 }
    ensures { result ≡ refusal_of p }
{
    match p {
        Progress::Options(_) => Refusal::Unreadable(0),
        Progress::Pressures(got) => end_in_nodes(false, 0, got),
        Progress::Nodes(pressures, n, got) => end_in_nodes(pressures, n, got),
        Progress::Links(pressures, n, k, got) => end_in_links(pressures, n, k, got),
        Progress::Stopped(at) => Refusal::Unreadable(at),
    }
}

// The listing of a sheet that is refused so, at the start of the buffer, and how many bytes it takes.
pub fn line(r: Refusal, out: &mut [u8]) -> usize
    requires { 128 ≤ length out.old }
    ensures text { out.new ≡ placed out.old 0 (line_of r) }
    ensures end { result ≡ length (line_of r) }
    ensures few { result ≤ 128 }
{
    text::answer_line(
        refusals::refusal_number(r),
        refusals::refusal_place(r),
        0,
        0,
        0,
        out,
        0,
    )
}
