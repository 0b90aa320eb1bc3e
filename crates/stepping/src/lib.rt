// One trial of a solve whose state the caller holds.
#![tactic(auto)]

ghost use Rattle.std.specs.Prelude.{◌≡◌};
ghost use Rattle.sheet.specs.Read.{read_of};
ghost use Rattle.trial.specs.Trial.{repair_of};
ghost use Rattle.answers.specs.Answers.{lent, Enough};
ghost use Rattle.solver.specs.Solve.{trials_of};
ghost use Rattle.held.specs.Held.{held};
ghost use Rattle.stepping.specs.Taking.{take_turn, take_of};

use held::{Taken, Told, keep, more, refused};
use layout::Layout;
use std::ops::ControlFlow;

// The next trial, and the answer where it was the last.
fn take_one(
    sheet: &[u8],
    l: Layout,
    trials: usize,
    h: &mut [f64; 64],
    d: &mut [f64; 64],
    f: &mut [f64; 64],
    q: &mut [f64; 128],
    c: &mut [u8; 128],
    z: &mut [u8; 64],
    sums: &mut [f64; 5],
    counts: &mut [u64; 6],
    heads: &mut [f64],
    demands: &mut [f64],
    flows: &mut [f64],
    statuses: &mut [u8],
    entries: &mut [u8],
    scratch: &mut [f64],
) -> Taken
    requires sheet_value { read_of sheet.now ≡ Ok l }
    requires trials_value { trials ≡ trials_of sheet.now }
    requires enough { Enough l trials (lent heads.old demands.old flows.old statuses.old entries.old scratch.old) }
    ensures { record { taken = result; held = held h.new d.new f.new q.new c.new z.new sums.new counts.new; lent = lent heads.new demands.new flows.new statuses.new entries.new scratch.new } ≡ take_turn repair_of sheet.now l (held h.old d.old f.old q.old c.old z.old sums.old counts.old) (lent heads.old demands.old flows.old statuses.old entries.old scratch.old) }
{
    let damping = held_numbers::damping_in(*sums);
    let tally = held_numbers::tally_in(*counts);
    let mut marks = held_marks::marks_in(z);
    let turn = turns::next_turn(
        sheet,
        l,
        trials,
        damping,
        tally,
        h,
        d,
        f,
        q,
        c,
        &mut marks,
        entries,
        &mut scratch[..4096],
    );
    *z = held_marks::marks_out(&marks);
    let after = turn.tally;
    match turns::follows(trials, turn) {
        ControlFlow::Continue(next) => keep(next, more(after), sums, counts),
        ControlFlow::Break(ended) => {
            let a = conclusion::conclude(
                sheet, l, trials, ended, after, h, d, f, q, c, heads, demands, flows, statuses,
            );
            let t = Taken {
                how: Told::Answered,
                answer: a,
            };
            keep(damping, t, sums, counts)
        }
    }
}

// One trial of any sheet with any state and any buffers.
pub fn take(
    sheet: &[u8],
    h: &mut [f64; 64],
    d: &mut [f64; 64],
    f: &mut [f64; 64],
    q: &mut [f64; 128],
    c: &mut [u8; 128],
    z: &mut [u8; 64],
    sums: &mut [f64; 5],
    counts: &mut [u64; 6],
    heads: &mut [f64],
    demands: &mut [f64],
    flows: &mut [f64],
    statuses: &mut [u8],
    entries: &mut [u8],
    scratch: &mut [f64],
) -> Taken
    ensures { record { taken = result; held = held h.new d.new f.new q.new c.new z.new sums.new counts.new; lent = lent heads.new demands.new flows.new statuses.new entries.new scratch.new } ≡ take_of sheet.now (held h.old d.old f.old q.old c.old z.old sums.old counts.old) (lent heads.old demands.old flows.old statuses.old entries.old scratch.old) }
{
    let n = *counts;
    if n[0] != 0 {
        return Taken {
            how: Told::Answered,
            answer: held_numbers::answer_in(*sums, n),
        };
    }
    match sheet::read(sheet) {
        Err(r) => refused(refusals::refusal_number(r), refusals::refusal_place(r)),
        Ok(l) => {
            let options = records::options_of(sheet);
            let trials = options.trials;
            match answers::too_short(
                l,
                trials,
                heads.len(),
                demands.len(),
                flows.len(),
                statuses.len(),
                entries.len(),
                scratch.len(),
            ) {
                Some(place) => refused(5, place),
                None => take_one(
                    sheet, l, trials, h, d, f, q, c, z, sums, counts, heads, demands, flows,
                    statuses, entries, scratch,
                ),
            }
        }
    }
}
