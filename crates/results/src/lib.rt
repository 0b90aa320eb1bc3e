// The result lines of the listing: nodes, links and the balance. Each function puts its text at a
// position of a lent buffer and gives the position after it. A line takes at most 128 bytes.
#![tactic(auto)]

ghost use Rattle.std.specs.Prelude.{◌≡◌, ◌+◌, ◌*◌, ◌≤◌, length};
ghost use Rattle.words.specs.Buffer.{placed};
ghost use Rattle.results.specs.Lines.{node_lines, link_lines, balance_line};

use words::{put_byte, put_float, put_number};

pub fn node_lines(heads: &[f64], demands: &[f64], count: usize, out: &mut [u8], at: usize) -> usize
    requires { (count ≤ length heads.now) × ((count ≤ length demands.now) × (at + 128 * count ≤ length out.old)) }
    ensures text { out.new ≡ placed out.old at (node_lines heads.now demands.now count) }
    ensures end { result ≡ at + length (node_lines heads.now demands.now count) }
{
    let mut p = at;
    for i in 0..count {
        p = put_byte(b'N', out, p);
        p = put_number(i, out, p);
        p = put_float(heads[i], out, p);
        p = put_float(demands[i], out, p);
        p = put_byte(b'\n', out, p);
    }
    p
}

pub fn link_lines(flows: &[f64], statuses: &[u8], count: usize, out: &mut [u8], at: usize) -> usize
    requires { (count ≤ length flows.now) × ((count ≤ length statuses.now) × (at + 128 * count ≤ length out.old)) }
    ensures text { out.new ≡ placed out.old at (link_lines flows.now statuses.now count) }
    ensures end { result ≡ at + length (link_lines flows.now statuses.now count) }
{
    let mut p = at;
    for i in 0..count {
        p = put_byte(b'L', out, p);
        p = put_number(i, out, p);
        p = put_float(flows[i], out, p);
        p = put_number(statuses[i] as usize, out, p);
        p = put_byte(b'\n', out, p);
    }
    p
}

pub fn balance_line(demand: f64, supply: f64, error: f64, out: &mut [u8], at: usize) -> usize
    requires { at + 128 ≤ length out.old }
    ensures text { out.new ≡ placed out.old at (balance_line demand supply error) }
    ensures end { result ≡ at + length (balance_line demand supply error) }
{
    let mut p = put_byte(b'B', out, at);
    p = put_float(demand, out, p);
    p = put_float(supply, out, p);
    p = put_float(error, out, p);
    put_byte(b'\n', out, p)
}
