// Which nodes are joined to a held node by conducting links, and the lowest node that needs to be and is not.
#![tactic(auto)]

ghost use Rattle.std.specs.Prelude.{◌≡◌, ◌<◌, ◌≤◌, length, get_or};
ghost use Rattle.found.specs.Searches.{first_of};
ghost use Rattle.reach.specs.Reach.{marks, passed, follows, followed, stirred, swept, sweeps, EndsBelow, lacks};

use search::first_where;

// Marks one end of a link that conducts where the other is marked. Whether it was not marked before.
fn pass(reached: &mut [bool], on: bool, from: usize, to: usize) -> bool
    requires { (from < length reached.old) × (to < length reached.old) }
    ensures reached_after { reached.new ≡ passed on from to reached.old }
    ensures value { result ≡ marks on from to reached.old }
{
    if on & (reached[from] & !reached[to]) {
        reached[to] = true;
        return true;
    }
    false
}

// Follows a link from its start to its end, and back.
fn follow(reached: &mut [bool], on: bool, start: usize, end: usize) -> bool
    requires { (start < length reached.old) × (end < length reached.old) }
    ensures reached_after { reached.new ≡ followed on start end reached.old }
    ensures value { result ≡ follows on start end reached.old }
{
    let there = pass(reached, on, start, end);
    let back = pass(reached, on, end, start);
    there | back
}

// Follows every link once, in order. Whether a node more was marked.
fn sweep(
    links: usize,
    starts: &[usize],
    ends: &[usize],
    joins: &[bool],
    reached: &mut [bool],
) -> bool
    requires links_in_bounds { (links ≤ length starts.now) × ((links ≤ length ends.now) × (links ≤ length joins.now)) }
    requires ends_below { EndsBelow (length reached.old) links starts.now ends.now }
    ensures reached_after { reached.new ≡ swept starts.now ends.now joins.now links reached.old }
    ensures value { result ≡ stirred starts.now ends.now joins.now links reached.old }
{
    let mut changed = false;
    for j in 0..links {
        let more = follow(reached, joins[j], starts[j], ends[j]);
        changed = changed | more;
    }
    changed
}

// Marks every node that conducting links join to one marked on entry; the entries past the nodes stay.
pub fn spread(
    nodes: usize,
    links: usize,
    starts: &[usize],
    ends: &[usize],
    joins: &[bool],
    reached: &mut [bool],
)
    requires links_in_bounds { (links ≤ length starts.now) × ((links ≤ length ends.now) × ((links ≤ length joins.now) × (nodes ≤ length reached.old))) }
    requires ends_below { EndsBelow nodes links starts.now ends.now }
    ensures { reached.new ≡ sweeps starts.now ends.now joins.now links nodes reached.old }
{
    for turn in 0..nodes {
        if !sweep(links, starts, ends, joins, reached) {
            return;
        }
    }
}

// The lowest node that needs to be joined and is not.
pub fn first_unjoined(nodes: usize, needs: &[bool], reached: &[bool]) -> Option<usize>
    requires { (nodes ≤ length needs.now) × (nodes ≤ length reached.now) }
    ensures { result ≡ first_of (lacks needs.now reached.now) nodes }
{
    first_where(nodes, |i| needs[i] & !reached[i])
}
