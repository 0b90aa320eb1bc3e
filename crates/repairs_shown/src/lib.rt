// Line 2 of the verdict: whether a record shows a repair, and where first. It is read from the bytes
// that were handed out, as a caller would read them.
#![tactic(auto)]

ghost use Rattle.std.specs.Prelude.{◌≡◌, ◌+◌, ◌*◌, ◌<◌, ◌≤◌, length};
ghost use Rattle.repairs_shown.specs.Shown.{shows, repair_shown};

use search::first_where;

// Whether the ith entry's letters are VF or GN.
fn shows(entries: &[u8], i: usize) -> bool
    requires { (i < 65536) × (4 * i + 4 ≤ length entries.now) }
    ensures { result ≡ shows entries.now i }
{
    let first = entries[4 * i];
    let second = entries[4 * i + 1];
    ((first == b'V') & (second == b'F')) | ((first == b'G') & (second == b'N'))
}

// The first of so many entries that is a repair.
pub fn repair_shown(entries: &[u8], trials: usize) -> Option<usize>
    requires { (trials < 65536) × (4 * trials ≤ length entries.now) }
    ensures { result ≡ repair_shown entries.now trials }
{
    first_where(trials, |i| shows(entries, i))
}
