// How the end of a run is told, and what it writes into the lent buffers (document 01, "What the
// desk is told").
#![tactic(auto)]

ghost use Rattle.std.specs.Prelude.{◌≡◌, List, Bool, ℕ, ◌≤◌, length, Float};
ghost use Rattle.layout.specs.Places.{Laid};
ghost use Rattle.links.specs.Links.{EndsIn};
ghost use Rattle.state.specs.State.{state};
ghost use Rattle.columns.specs.Columns.{copied};
ghost use Rattle.answers.specs.Answers.{lent};
ghost use Rattle.conclusion.specs.Conclusion.{emptied, told};

use answers::{Answer, failed};
use columns::copy_first;
use drawing::counts;
use entries::{Ended, Tally};
use layout::Layout;

// Results into the caller's buffers: one entry a node or a link; later entries stay.
fn give(
    l: Layout,
    heads: &mut [f64],
    demands: &mut [f64],
    flows: &mut [f64],
    statuses: &mut [u8],
    h: &[f64],
    d: &[f64],
    q: &[f64],
    c: &[u8],
)
    requires nodes_in_bounds { (l.nodes ≤ length heads.old) × (l.nodes ≤ length demands.old) × (l.links ≤ length flows.old) × (l.links ≤ length statuses.old) }
    requires nodes_in_bounds_2 { (l.nodes ≤ length h.now) × (l.nodes ≤ length d.now) × (l.links ≤ length q.now) × (l.links ≤ length c.now) }
    ensures heads { heads.new ≡ copied l.nodes h.now heads.old }
    ensures demands { demands.new ≡ copied l.nodes d.now demands.old }
    ensures flows { flows.new ≡ copied l.links q.now flows.old }
    ensures statuses { statuses.new ≡ copied l.links c.now statuses.old }
{
    copy_first(heads, h, l.nodes);
    copy_first(demands, d, l.nodes);
    copy_first(flows, q, l.links);
    copy_first(statuses, c, l.links);
}

// What a run came to, told: results on 0 alone. The columns are the run's own.
pub fn conclude<'a>(
    sheet: &[u8],
    l: Layout,
    trials: usize,
    ended: Ended,
    tally: Tally,
    h: &[f64],
    d: &'a [f64],
    f: &'a [f64],
    q: &[f64],
    c: &[u8],
    heads: &mut [f64],
    demands: &mut [f64],
    flows: &mut [f64],
    statuses: &mut [u8],
) -> Answer
    requires laid { Laid l sheet.now }
    requires ends_in { EndsIn l sheet.now }
    requires nodes_in_bounds { (l.nodes ≤ length heads.old) × (l.nodes ≤ length demands.old) × (l.links ≤ length flows.old) × (l.links ≤ length statuses.old) }
    requires nodes_in_bounds_2 { (l.nodes ≤ length h.now) × (l.nodes ≤ length d.now) × (l.nodes ≤ length f.now) × (l.links ≤ length q.now) × (l.links ≤ length c.now) }
    ensures { (marks : List Bool) (bytes record₀ : List ℕ) (scratch : List Float) → record { answer = result; lent = lent heads.new demands.new flows.new statuses.new bytes (emptied scratch) } ≡ told sheet.now l trials (lent heads.old demands.old flows.old statuses.old record₀ scratch) (state h.now d.now f.now q.now c.now marks) tally bytes ended }
{
    match ended {
        Ended::Balanced => {
            let t = balance::balanced(sheet, l, d, q);
            let counted = counts(l.pressures, f, d);
            give(l, heads, demands, flows, statuses, h, counted, q, c);
            balance::settle(l.nodes, demands);
            Answer {
                number: 0,
                place: 0,
                trials: tally.trials,
                freed: tally.freed,
                grounded: tally.grounded,
                demand: t.demand,
                supply: t.supply,
                error: t.error,
            }
        }
        Ended::Failed(i) => failed(6, i.0, tally),
        Ended::Strayed(p) => failed(7, p, tally),
        Ended::Limit => failed(8, trials, tally),
    }
}
