// What the sums and counts that a caller holds mean: the damping, the counts so far and the answer.
#![tactic(auto)]

ghost use Rattle.std.specs.Prelude.{◌≡◌};
ghost use Rattle.held.specs.Held.{damping_in, tally_in, answer_in};

use answers::Answer;
use damping::Damping;
use entries::Tally;

pub fn damping_in(sums: [f64; 5]) -> Damping
    ensures { result ≡ damping_in sums }
{
    Damping {
        factor: sums[0],
        previous: sums[1],
    }
}

pub fn tally_in(counts: [u64; 6]) -> Tally
    ensures { result ≡ tally_in counts }
{
    let trials = counts[3] as usize;
    let freed = counts[4] as usize;
    let grounded = counts[5] as usize;
    Tally {
        trials: trials,
        freed: freed,
        grounded: grounded,
    }
}

pub fn answer_in(sums: [f64; 5], counts: [u64; 6]) -> Answer
    ensures { result ≡ answer_in sums counts }
{
    Answer {
        number: counts[1] as usize,
        place: counts[2] as usize,
        trials: counts[3] as usize,
        freed: counts[4] as usize,
        grounded: counts[5] as usize,
        demand: sums[2],
        supply: sums[3],
        error: sums[4],
    }
}
