// What a trial leaves in the record, what the answer counts of it, and what follows an entry.
#![tactic(auto)]

ghost use Rattle.std.specs.Prelude.{◌≡◌, ◌+◌, ◌<◌, ◌≤◌};
ghost use Rattle.entries.specs.Entries.{damping_start, going_of, counted};

use causes::Flip;
use damping::Damping;
use links::LinkIndex;
use nodes::NodeIndex;
use std::ops::ControlFlow;

// What a trial came to: VF, GN, SG, NF, ST (with the damping of the next trial) and OK, both with the
// first change of status.
#[derive(Clone, Copy)]
pub enum Entry {
    Freed(LinkIndex),
    Grounded(NodeIndex),
    Singular(NodeIndex),
    Wild(usize),
    Stepped(Damping, Flip),
    Converged(Flip),
}

// How a run of trials ended: 0, 6, 7, 8.
#[derive(Clone, Copy)]
pub enum Ended {
    Balanced,
    Failed(NodeIndex),
    Strayed(usize),
    Limit,
}

// Whether there is a trial after an entry.
pub type Going = ControlFlow<Ended, Damping>;

#[derive(Clone, Copy)]
pub struct Tally {
    pub trials: usize,
    pub freed: usize,
    pub grounded: usize,
}

// Factor 1, previous change infinite.
pub fn damping_start() -> Damping
    ensures { result ≡ damping_start }
{
    Damping {
        factor: 1.0,
        previous: 1.0 / 0.0,
    }
}

// What follows an entry.
pub fn go(e: Entry, d: Damping) -> Going
    ensures { result ≡ going_of d e }
{
    match e {
        Entry::Freed(_) => ControlFlow::Continue(d),
        Entry::Grounded(_) => ControlFlow::Continue(d),
        Entry::Singular(n) => ControlFlow::Break(Ended::Failed(n)),
        Entry::Wild(p) => ControlFlow::Break(Ended::Strayed(p)),
        Entry::Stepped(next, _) => ControlFlow::Continue(next),
        Entry::Converged(_) => ControlFlow::Break(Ended::Balanced),
    }
}

// A tally of one trial more that freed and grounded nothing.
fn one_more(t: Tally) -> Tally
    requires { t.trials < 65536 }
    ensures { result ≡ record { trials = t.trials + 1; freed = t.freed; grounded = t.grounded } }
{
    Tally {
        trials: t.trials + 1,
        freed: t.freed,
        grounded: t.grounded,
    }
}

// A tally with one entry more.
pub fn count(t: Tally, e: Entry) -> Tally
    requires { (t.trials < 65536) × ((t.freed ≤ t.trials) × (t.grounded ≤ t.trials)) }
    ensures { result ≡ counted t e }
{
    match e {
        Entry::Freed(_) => Tally {
            trials: t.trials + 1,
            freed: t.freed + 1,
            grounded: t.grounded,
        },
        Entry::Grounded(_) => Tally {
            trials: t.trials + 1,
            freed: t.freed,
            grounded: t.grounded + 1,
        },
        Entry::Singular(_) => one_more(t),
        Entry::Wild(_) => one_more(t),
        Entry::Stepped(_, _) => one_more(t),
        Entry::Converged(_) => one_more(t),
    }
}
