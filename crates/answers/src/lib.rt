// The answer, refusal 5, and answers without results (document 01, "What the desk is told").
#![tactic(auto)]

ghost use Rattle.std.specs.Prelude.{◌≡◌, ◌≤◌};
ghost use Rattle.refusals.specs.Refusals.{number_of, place_of};
ghost use Rattle.entries.specs.Entries.{none};
ghost use Rattle.answers.specs.Answers.{too_short, failed_of};

use entries::Tally;
use layout::Layout;
use refusals::Refusal;

#[derive(Clone, Copy)]
pub struct Answer {
    pub number: usize,
    pub place: usize,
    pub trials: usize,
    pub freed: usize,
    pub grounded: usize,
    pub demand: f64,
    pub supply: f64,
    pub error: f64,
}

// Refusal 5: the lowest place of a buffer that is too short, by the buffers' lengths.
pub fn too_short(
    l: Layout,
    trials: usize,
    heads: usize,
    demands: usize,
    flows: usize,
    statuses: usize,
    entries: usize,
    scratch: usize,
) -> Option<usize>
    requires { trials ≤ 65535 }
    ensures { result ≡ too_short l trials heads demands flows statuses entries scratch }
{
    if heads < l.nodes {
        return Some(0);
    }
    if demands < l.nodes {
        return Some(1);
    }
    if flows < l.links {
        return Some(2);
    }
    if statuses < l.links {
        return Some(3);
    }
    if entries < 4 * trials {
        return Some(4);
    }
    if scratch < 4096 {
        return Some(5);
    }
    None
}

// An answer without results.
pub fn failed(number: usize, place: usize, t: Tally) -> Answer
    ensures { result ≡ failed_of number place t }
{
    Answer {
        number: number,
        place: place,
        trials: t.trials,
        freed: t.freed,
        grounded: t.grounded,
        demand: 0.0,
        supply: 0.0,
        error: 0.0,
    }
}

// An answer before any trial.
pub fn refused(number: usize, place: usize) -> Answer
    ensures { result ≡ failed_of number place none }
{
    failed(
        number,
        place,
        Tally {
            trials: 0,
            freed: 0,
            grounded: 0,
        },
    )
}

// The answer to a sheet that is refused.
pub fn refuse(r: Refusal) -> Answer
    ensures { result ≡ failed_of (number_of r) (place_of r) none }
{
    refused(refusals::refusal_number(r), refusals::refusal_place(r))
}
