// What a call tells, and how it is held between two trials. held_marks and held_numbers read what is held.
#![tactic(auto)]

ghost use Rattle.std.specs.Prelude.{◌≡◌};
ghost use Rattle.held.specs.Held.{told_number, sums_of, counts_of, more, refusal};

use answers::{Answer, failed};
use damping::Damping;
use entries::Tally;

// What a call tells: a trial was taken or is to be taken, and more follow; the answer; or refused, and
// nothing changed.
#[derive(Clone, Copy, Debug, PartialEq, Eq)]
pub enum Told {
    More,
    Answered,
    Refused,
    // a number that no call tells: counts may hold any
    Other(u64),
}

impl From<Told> for u64 {
    ghost from_gives = { λ told number. number ≡ told_number told };

    fn from(told: Told) -> u64 {
        match told {
            Told::More => 0,
            Told::Answered => 1,
            Told::Refused => 2,
            Told::Other(number) => number,
        }
    }
}

// What a call told, and its answer: where more follow, the counts so far.
#[derive(Clone, Copy)]
pub struct Taken {
    pub how: Told,
    pub answer: Answer,
}

// A trial was taken or is to be taken, and more follow.
pub fn more(tally: Tally) -> Taken
    ensures { result ≡ more tally }
{
    Taken {
        how: Told::More,
        answer: failed(0, 0, tally),
    }
}

// Refused, and nothing changed.
pub fn refused(number: usize, place: usize) -> Taken
    ensures { result ≡ refusal number place }
{
    let none = Tally {
        trials: 0,
        freed: 0,
        grounded: 0,
    };
    Taken {
        how: Told::Refused,
        answer: failed(number, place, none),
    }
}

// Damping factor, previous change, total demand, total supply, error.
fn sums_of(d: Damping, a: Answer) -> [f64; 5]
    ensures { result ≡ sums_of d a }
{
    [d.factor, d.previous, a.demand, a.supply, a.error]
}

// What the call told, then number, place, trials, freed valves and grounded nodes.
pub fn counts_of(t: Taken) -> [u64; 6]
    ensures { result ≡ counts_of t }
{
    [
        u64::from(t.how),
        t.answer.number as u64,
        t.answer.place as u64,
        t.answer.trials as u64,
        t.answer.freed as u64,
        t.answer.grounded as u64,
    ]
}

// The damping and what is told, kept for the next call.
pub fn keep(d: Damping, t: Taken, sums: &mut [f64; 5], counts: &mut [u64; 6]) -> Taken
    ensures sums { sums.new ≡ sums_of d t.answer }
    ensures counts { counts.new ≡ counts_of t }
    ensures told { result ≡ t }
{
    *sums = sums_of(d, t.answer);
    *counts = counts_of(t);
    t
}
