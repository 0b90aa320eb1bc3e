// The listing of a sheet, composed into a lent buffer (document 01, "The listing program").
#![tactic(auto)]

ghost use Rattle.std.specs.Prelude.{◌≡◌, ◌*◌, ◌≤◌, length};
ghost use Rattle.sheet.specs.Read.{read_of};
ghost use Rattle.words.specs.Buffer.{placed, Put};
ghost use Rattle.listing_text.specs.Listing.{head_lines, result_lines, lines_of, listing_of};

use answers::Answer;
use layout::Layout;

fn head_lines(a: Answer, entries: &[u8], out: &mut [u8]) -> usize
    requires { (a.trials ≤ 200) × (4 * a.trials ≤ length entries.now) × (65536 ≤ length out.old) }
    ensures put { Put out.old 0 (head_lines a entries.now) out.new result }
    ensures upper_bound { result ≤ 25728 }
{
    let at = text::answer_line(a.number, a.place, a.trials, a.freed, a.grounded, out, 0);
    text::record_lines(entries, a.trials, out, at)
}

fn result_lines(
    l: Layout,
    a: Answer,
    heads: &[f64],
    demands: &[f64],
    flows: &[f64],
    statuses: &[u8],
    out: &mut [u8],
    at: usize,
) -> usize
    requires nodes_bound { (l.nodes ≤ 64) × (l.links ≤ 128) × (at ≤ 25728) × (65536 ≤ length out.old) }
    requires in_bounds { (64 ≤ length heads.now) × (64 ≤ length demands.now) × (128 ≤ length flows.now) × (128 ≤ length statuses.now) }
    ensures put { Put out.old at (result_lines l a heads.now demands.now flows.now statuses.now) out.new result }
    ensures upper_bound { result ≤ 50432 }
{
    let mut p = results::node_lines(heads, demands, l.nodes, out, at);
    p = results::link_lines(flows, statuses, l.links, out, p);
    results::balance_line(a.demand, a.supply, a.error, out, p)
}

// All lines of an answer. The sheet is read again for its counts of nodes and links.
pub fn tell(
    sheet: &[u8],
    a: Answer,
    heads: &[f64],
    demands: &[f64],
    flows: &[f64],
    statuses: &[u8],
    entries: &[u8],
    out: &mut [u8],
) -> usize
    requires trials_bound { (a.trials ≤ 200) × (800 ≤ length entries.now) × (65536 ≤ length out.old) }
    requires in_bounds { (64 ≤ length heads.now) × (64 ≤ length demands.now) × (128 ≤ length flows.now) × (128 ≤ length statuses.now) }
    ensures put { Put out.old 0 (lines_of (read_of sheet.now) a heads.now demands.now flows.now statuses.now entries.now) out.new result }
    ensures upper_bound { result ≤ 50432 }
{
    let at = head_lines(a, entries, out);
    if a.number != 0 {
        return at;
    }
    match sheet::read(sheet) {
        Ok(l) => result_lines(l, a, heads, demands, flows, statuses, out, at),
        Err(_) => at,
    }
}

// The listing of a sheet of any length and content, and how many bytes it takes.
pub fn compose(sheet: &[u8], out: &mut [u8]) -> usize
    requires { 65536 ≤ length out.old }
    ensures text { out.new ≡ placed out.old 0 (listing_of sheet.now) }
    ensures end { result ≡ length (listing_of sheet.now) }
    ensures few { result ≤ 50432 }
{
    let mut heads = [0.0f64; 64];
    let mut demands = [0.0f64; 64];
    let mut flows = [0.0f64; 128];
    let mut statuses = [0u8; 128];
    let mut entries = [0u8; 800];
    let mut scratch = [0.0f64; 4096];
    let a = solver::solve(
        sheet,
        &mut heads,
        &mut demands,
        &mut flows,
        &mut statuses,
        &mut entries,
        &mut scratch,
    );
    tell(sheet, a, &heads, &demands, &flows, &statuses, &entries, out)
}
