// Refusals of the whole call, once its sheet was read: 5 for the scratch, then 14.
ghost use Rattle.std.specs.Prelude.{◌≡◌, ◌*◌, ◌≤◌, ltb};
ghost use Rattle.rowwise.specs.Evening.{lacking, admitted_of};

use layout::Layout;

// 0 at 0: every row was solved. Else the refusal of the whole call, and its place.
#[derive(Clone, Copy)]
pub struct Called {
    pub number: usize,
    pub place: usize,
}

// How long the table and the buffers are.
#[derive(Clone, Copy)]
pub struct Lengths {
    pub table: usize,
    pub heads: usize,
    pub demands: usize,
    pub flows: usize,
    pub statuses: usize,
    pub entries: usize,
    pub counts: usize,
    pub totals: usize,
    pub scratch: usize,
}

// Whether so many entries are too few for the rows, each of which takes `size`.
fn lacks(length: usize, rows: usize, size: usize) -> bool
    requires { (rows ≤ 32) × (size ≤ 800) }
    ensures { result ≡ ltb length (rows * size) }
{
    length < rows * size
}

// Whether the table or a result buffer is too short.
fn any_lacks(l: Layout, trials: usize, width: usize, rows: usize, n: Lengths) -> bool
    requires { (rows ≤ 32) × (trials ≤ 200) × (width ≤ 7) × (l.nodes ≤ 64) × (l.links ≤ 128) }
    ensures { result ≡ lacking l trials width rows n }
{
    lacks(n.table, rows, l.nodes)
        | lacks(n.heads, rows, l.nodes)
        | lacks(n.demands, rows, l.nodes)
        | lacks(n.flows, rows, l.links)
        | lacks(n.statuses, rows, l.links)
        | lacks(n.entries, rows, 4 * trials)
        | lacks(n.counts, rows, width)
        | lacks(n.totals, rows, 3)
}

// 0 at 0 where the call is not refused.
pub fn admitted(l: Layout, trials: usize, width: usize, rows: usize, n: Lengths) -> Called
    requires { (trials ≤ 200) × (width ≤ 7) × (l.nodes ≤ 64) × (l.links ≤ 128) }
    ensures { result ≡ admitted_of l trials width rows n }
{
    if n.scratch < 4096 {
        return Called {
            number: 5,
            place: 5,
        };
    }
    if rows == 0 {
        return Called {
            number: 14,
            place: 0,
        };
    }
    if 32 < rows {
        return Called {
            number: 14,
            place: 1,
        };
    }
    if any_lacks(l, trials, width, rows, n) {
        return Called {
            number: 14,
            place: 2,
        };
    }
    Called {
        number: 0,
        place: 0,
    }
}
