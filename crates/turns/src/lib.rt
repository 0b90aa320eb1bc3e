// The next trial of a solve whose counts may be any, with what is made for it, and what follows it.
#![tactic(auto)]

ghost use Rattle.std.specs.Prelude.{◌≡◌, ◌*◌, ◌≤◌, length};
ghost use Rattle.columns.specs.Columns.{zeros};
ghost use Rattle.links.specs.Links.{link_start, link_end};
ghost use Rattle.touching.specs.Touching.{Joined};
ghost use Rattle.state.specs.Network.{Network};
ghost use Rattle.state.specs.State.{state};
ghost use Rattle.trial.specs.Trial.{Room, repair_of};
ghost use Rattle.turns.specs.Turns.{due, follows, next_turn};

use damping::Damping;
use entries::{Ended, Going, Tally};
use layout::Layout;
use runs::Turn;
use std::ops::ControlFlow;

// Whether the counts can be those of a start and trials with one more to take.
fn due(trials: usize, t: Tally) -> bool
    ensures { result ≡ due trials t }
{
    (t.trials < trials) & (t.freed <= t.trials) & (t.grounded <= t.trials)
}

// What follows a turn where so many trials are allowed: after the last one there is none.
pub fn follows(trials: usize, turn: Turn) -> Going
    ensures { result ≡ follows trials turn.tally turn.going }
{
    let going = turn.going;
    match going {
        ControlFlow::Continue(next) => {
            if turn.tally.trials < trials {
                ControlFlow::Continue(next)
            } else {
                ControlFlow::Break(Ended::Limit)
            }
        }
        ControlFlow::Break(ended) => ControlFlow::Break(ended),
    }
}

// The next trial, with the numbering, the links at nodes and the tables made for it; where none is due the run is over at
// its limit. The scratch is all +0.0 at the end.
pub fn next_turn(
    sheet: &[u8],
    l: Layout,
    trials: usize,
    damping: Damping,
    tally: Tally,
    h: &mut [f64],
    d: &mut [f64],
    f: &mut [f64],
    q: &mut [f64],
    c: &mut [u8],
    z: &mut [bool],
    entries: &mut [u8],
    scratch: &mut [f64],
) -> Turn
    requires network { Network l sheet.now }
    requires joined { Joined (link_start sheet.now l) (link_end sheet.now l) l.nodes l.links }
    requires room { Room l (state h.old d.old f.old q.old c.old z.old) }
    requires trials_bound { (trials ≤ 65535) × ((4 * trials ≤ length entries.old) × (length scratch.old ≡ 4096)) }
    ensures turn { record { turn = result; bytes = entries.new; state = state h.new d.new f.new q.new c.new z.new } ≡ next_turn repair_of sheet.now l trials damping tally entries.old (state h.old d.old f.old q.old c.old z.old) }
    ensures cleared { scratch.new ≡ zeros 4096 }
{
    columns::clear(4096, scratch);
    if !due(trials, tally) {
        return Turn {
            going: ControlFlow::Break(Ended::Limit),
            tally: Tally {
                trials: 0,
                freed: 0,
                grounded: 0,
            },
        };
    }
    let mut unknowns = [0usize; 64];
    let mut places = [0usize; 65];
    let mut listed = [0usize; 256];
    let table = power::power_table();
    numbering::number_unknowns(sheet, l, &mut unknowns);
    links_at::list_at_nodes(sheet, l, &mut places, &mut listed);
    runs::advance(
        sheet, l, &unknowns, &places, &listed, &table, damping, tally, h, d, f, q, c, z, entries,
        scratch,
    )
}
