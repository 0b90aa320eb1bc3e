// One trial with its entry, and trials until one ends the run, at most as many as the sheet allows.
#![tactic(auto)]

ghost use Rattle.std.specs.Prelude.{◌≡◌, ◌+◌, ◌*◌, ◌<◌, ◌≤◌, length};
ghost use Rattle.columns.specs.Columns.{zeros};
ghost use Rattle.numbering.specs.Numbering.{RowsRight};
ghost use Rattle.links_at.specs.LinksAt.{LinksAt};
ghost use Rattle.state.specs.Network.{Network};
ghost use Rattle.state.specs.State.{state};
ghost use Rattle.trial.specs.Trial.{Room, repair_of};
ghost use Rattle.entries.specs.Entries.{damping_start, none};
ghost use Rattle.runs.specs.Run.{turn_of, run_with, finish};

use damping::Damping;
use entries::{Ended, Going, Tally, count, damping_start, go};
use layout::Layout;
use marks::{marked, put};
use power::PowerTable;
use std::ops::ControlFlow;

#[derive(Clone, Copy)]
pub struct Ran {
    pub ended: Ended,
    pub tally: Tally,
}

// What follows a trial, and the tally with it.
#[derive(Clone, Copy)]
pub struct Turn {
    pub going: Going,
    pub tally: Tally,
}

// One trial: its entry is put behind those of the tally, and counted. The scratch, which holds the
// matrix meanwhile, is all +0.0 before it and after it.
pub fn advance(
    sheet: &[u8],
    l: Layout,
    unknowns: &[usize],
    places: &[usize],
    listed: &[usize],
    table: &PowerTable,
    d: Damping,
    tally: Tally,
    heads: &mut [f64],
    demands: &mut [f64],
    drawn: &mut [f64],
    flows: &mut [f64],
    statuses: &mut [u8],
    grounded: &mut [bool],
    entries: &mut [u8],
    scratch: &mut [f64],
) -> Turn
    requires network { Network l sheet.now }
    requires links_at { LinksAt l sheet.now places.now listed.now }
    requires nodes_in_bounds { (l.nodes ≤ length unknowns.now) × (RowsRight l sheet.now unknowns.now) }
    requires room { Room l (state heads.old demands.old drawn.old flows.old statuses.old grounded.old) }
    requires trials_bound { (tally.trials < 65535) × ((tally.freed ≤ tally.trials) × (tally.grounded ≤ tally.trials)) }
    requires trials_in_bounds { (4 * tally.trials + 4 ≤ length entries.old) × (scratch.old ≡ zeros 4096) }
    ensures turn { record { turn = result; bytes = entries.new; state = state heads.new demands.new drawn.new flows.new statuses.new grounded.new } ≡ turn_of repair_of sheet.now l d tally entries.old (state heads.old demands.old drawn.old flows.old statuses.old grounded.old) }
    ensures cleared { scratch.new ≡ zeros 4096 }
{
    let e = trial::trial(
        sheet, l, unknowns, places, listed, table, d, heads, demands, drawn, flows, statuses,
        grounded, scratch,
    );
    columns::clear(64 * l.unknowns, scratch);
    put(entries, tally.trials, marked(e));
    Turn {
        going: go(e, d),
        tally: count(tally, e),
    }
}

// Trials until one ends the run, or until there are no more; the scratch is all +0.0 at the end.
pub fn run_trials(
    sheet: &[u8],
    l: Layout,
    trials: usize,
    unknowns: &[usize],
    places: &[usize],
    listed: &[usize],
    table: &PowerTable,
    heads: &mut [f64],
    demands: &mut [f64],
    drawn: &mut [f64],
    flows: &mut [f64],
    statuses: &mut [u8],
    grounded: &mut [bool],
    entries: &mut [u8],
    scratch: &mut [f64],
) -> Ran
    requires network { Network l sheet.now }
    requires links_at { LinksAt l sheet.now places.now listed.now }
    requires nodes_in_bounds { (l.nodes ≤ length unknowns.now) × (RowsRight l sheet.now unknowns.now) }
    requires room { Room l (state heads.old demands.old drawn.old flows.old statuses.old grounded.old) }
    requires trials_bound { (trials ≤ 65535) × ((4 * trials ≤ length entries.old) × (length scratch.old ≡ 4096)) }
    ensures state { record { ran = result; bytes = entries.new; state = state heads.new demands.new drawn.new flows.new statuses.new grounded.new } ≡ finish 0 none entries.old (run_with repair_of sheet.now l trials damping_start (state heads.old demands.old drawn.old flows.old statuses.old grounded.old)) }
    ensures cleared { scratch.new ≡ zeros 4096 }
{
    columns::clear(4096, scratch);
    let mut d = damping_start();
    let mut tally = Tally {
        trials: 0,
        freed: 0,
        grounded: 0,
    };
    while tally.trials < trials {
        let turn = advance(
            sheet, l, unknowns, places, listed, table, d, tally, heads, demands, drawn, flows,
            statuses, grounded, entries, scratch,
        );
        let going = turn.going;
        tally = turn.tally;
        match going {
            ControlFlow::Continue(next) => {
                d = next;
            }
            ControlFlow::Break(ended) => {
                return Ran {
                    ended: ended,
                    tally: tally,
                };
            }
        }
    }
    Ran {
        ended: Ended::Limit,
        tally: tally,
    }
}
