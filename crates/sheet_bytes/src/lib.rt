// The records of a sheet as bytes in a lent buffer: what crate records reads. Each function puts its
// bytes at a position and gives the position after them.
#![tactic(auto)]

ghost use Rattle.std.specs.Prelude.{◌≡◌, [], ◌∷◌, ◌++◌, ◌+◌, ◌≤◌, length};
ghost use Rattle.codes.specs.Codes.{link_code, status_code};
ghost use Rattle.words.specs.Buffer.{Put};
ghost use Rattle.spelled.specs.Texts.{bytes_of};
ghost use Rattle.sheet_bytes.specs.Bytes.{number_bytes, float_bytes, flag_byte, options_bytes, pressures_bytes, node_bytes, link_bytes};

use patterns::pattern;
use records::{Link, Node, Options, Pressures};
use words::put_byte;

// The bytes of a text, such as a record's mark.
pub fn put_text(text: &[u8], out: &mut [u8], at: usize) -> usize
    requires { at + length text.now ≤ length out.old }
    ensures put { Put out.old at text.now out.new result }
    ensures value { result ≡ at + length text.now }
{
    for i in 0..text.len() {
        out[at + i] = text[i];
    }
    at + text.len()
}

// The `count` lowest bytes of a number, the lowest first.
fn put_number(number: u64, count: usize, out: &mut [u8], at: usize) -> usize
    requires { at + count ≤ length out.old }
    ensures put { Put out.old at (number_bytes count number) out.new result }
    ensures value { result ≡ at + count }
{
    let mut left = number;
    for i in 0..count {
        out[at + i] = (left % 256) as u8;
        left = left / 256;
    }
    at + count
}

// The eight bytes of a float's pattern.
fn put_float(x: f64, out: &mut [u8], at: usize) -> usize
    requires { at + 8 ≤ length out.old }
    ensures put { Put out.old at (float_bytes x) out.new result }
    ensures value { result ≡ at + 8 }
{
    put_number(pattern(x), 8, out, at)
}

// Five floats, as nodes and links have them one behind the other.
fn put_five(a: f64, b: f64, c: f64, d: f64, e: f64, out: &mut [u8], at: usize) -> usize
    requires { at + 40 ≤ length out.old }
    ensures put { Put out.old at (float_bytes a ++ float_bytes b ++ float_bytes c ++ float_bytes d ++ float_bytes e) out.new result }
    ensures value { result ≡ at + 40 }
{
    let mut p = put_float(a, out, at);
    p = put_float(b, out, p);
    p = put_float(c, out, p);
    p = put_float(d, out, p);
    put_float(e, out, p)
}

// 1 for a flag that is set, else 0.
#[tactic(auto, unfolding(crate::specs::Bytes::flag_byte))]
fn flag_byte(flag: bool) -> u8
    ensures { result ≡ flag_byte flag }
{
    u8::from(flag)
}

// OP: accuracy, damping limit, max flow change, trials, flow unit.
pub fn put_options(o: Options, out: &mut [u8], at: usize) -> usize
    requires { at + 29 ≤ length out.old }
    ensures put { Put out.old at (options_bytes o) out.new result }
    ensures value { result ≡ at + 29 }
{
    let mut p = put_text(b"OP", out, at);
    p = put_float(o.accuracy, out, p);
    p = put_float(o.damping, out, p);
    p = put_float(o.change, out, p);
    p = put_number(o.trials as u64, 2, out, p);
    put_number(o.unit as u64, 1, out, p)
}

// PD: minimum and required pressure.
pub fn put_pressures(p: Pressures, out: &mut [u8], at: usize) -> usize
    requires { at + 18 ≤ length out.old }
    ensures put { Put out.old at (pressures_bytes p) out.new result }
    ensures value { result ≡ at + 18 }
{
    let mut q = put_text(b"PD", out, at);
    q = put_float(p.minimum, out, q);
    put_float(p.required, out, q)
}

// ND: kind, disabled, elevation, demand, head, max level, min level, overflow.
pub fn put_node(n: Node, out: &mut [u8], at: usize) -> usize
    requires { at + 45 ≤ length out.old }
    ensures put { Put out.old at (node_bytes n) out.new result }
    ensures value { result ≡ at + 45 }
{
    let kind = n.kind;
    let mut p = put_text(b"ND", out, at);
    p = put_byte(u8::from(kind), out, p);
    p = put_byte(flag_byte(n.disabled), out, p);
    p = put_five(n.elevation, n.demand, n.head, n.highest, n.lowest, out, p);
    put_byte(flag_byte(n.overflow), out, p)
}

// The mark of a link, its kind, check valve and status.
fn put_link_codes(k: Link, out: &mut [u8], at: usize) -> usize
    requires { at + 5 ≤ length out.old }
    ensures put { Put out.old at (bytes_of "LK" ++ link_code k.kind ∷ flag_byte k.check ∷ status_code k.status ∷ []) out.new result }
    ensures value { result ≡ at + 5 }
{
    let kind = k.kind;
    let status = k.status;
    let mut p = put_text(b"LK", out, at);
    p = put_byte(u8::from(kind), out, p);
    p = put_byte(flag_byte(k.check), out, p);
    put_byte(u8::from(status), out, p)
}

// LK: kind, check valve, status, start, end, setting, minor loss, diameter, resistance, flow.
pub fn put_link(k: Link, out: &mut [u8], at: usize) -> usize
    requires { at + 49 ≤ length out.old }
    ensures put { Put out.old at (link_bytes k) out.new result }
    ensures value { result ≡ at + 49 }
{
    let mut p = put_link_codes(k, out, at);
    p = put_number(k.start as u64, 2, out, p);
    p = put_number(k.end as u64, 2, out, p);
    put_five(k.setting, k.minor, k.diameter, k.resistance, k.flow, out, p)
}
