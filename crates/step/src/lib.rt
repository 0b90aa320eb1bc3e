// A trial's step once its matrix is factored: heads, flows and statuses, tank links, drawn
// flows, then what it comes to.
#![tactic(auto)]

ghost use Rattle.std.specs.Prelude.{◌≡◌, ◌≤◌, length};
ghost use Rattle.numbering.specs.Numbering.{RowsRight};
ghost use Rattle.links_at.specs.LinksAt.{LinksAt};
ghost use Rattle.state.specs.Network.{Network};
ghost use Rattle.state.specs.State.{state};
ghost use Rattle.step.specs.Step.{Room, outcome, judged, step_of};

use causes::Flip;
use damping::Damping;
use entries::Entry;
use layout::Layout;
use records::Options;
use update::Stats;

// Relative change, damping and convergence.
fn judge(options: Options, d: Damping, stats: Stats, flip: Flip) -> Entry
    ensures { result ≡ judged options d stats flip }
{
    let change = damping::relative_change(stats.moved, stats.total, options.accuracy);
    if damping::converged(
        change,
        options.accuracy,
        stats.changed,
        stats.largest,
        options.unit,
        options.change,
    ) {
        return Entry::Converged(flip);
    }
    let next = Damping {
        factor: damping::damped(d.factor, d.previous, change, options.damping),
        previous: change,
    };
    Entry::Stepped(next, flip)
}

// The step of a trial whose matrix was factored: x is the solved right side.
pub fn step(
    sheet: &[u8],
    l: Layout,
    unknowns: &[usize],
    places: &[usize],
    listed: &[usize],
    d: Damping,
    g: &[f64],
    y: &[f64],
    x: &[f64],
    heads: &mut [f64],
    demands: &mut [f64],
    drawn: &mut [f64],
    flows: &mut [f64],
    statuses: &mut [u8],
    grounded: &[bool],
) -> Entry
    requires network { Network l sheet.now }
    requires links_at { LinksAt l sheet.now places.now listed.now }
    requires nodes_in_bounds { (l.nodes ≤ length unknowns.now) × (RowsRight l sheet.now unknowns.now) }
    requires links_in_bounds { (l.links ≤ length g.now) × ((l.links ≤ length y.now) × (64 ≤ length x.now)) }
    requires room { Room l (state heads.old demands.old drawn.old flows.old statuses.old grounded.now) }
    ensures { outcome result (state heads.new demands.new drawn.new flows.new statuses.new grounded.now) ≡ step_of sheet.now l d (state heads.old demands.old drawn.old flows.old statuses.old grounded.now) g.now y.now x.now }
{
    state::put_heads(sheet, l, unknowns, x, heads);
    let updated = update::update_links(sheet, l, heads, g, y, d.factor, flows, statuses);
    let moved = updated.stats;
    let flip = updated.flip;
    tanks::tank_links(sheet, l, places, listed, heads, flows, demands, statuses);
    let stats = drawn::update_drawn(sheet, l, heads, d.factor, demands, drawn, moved);
    match wild::wild_place(l, heads, flows, drawn) {
        Some(place) => Entry::Wild(place),
        None => judge(records::options_of(sheet), d, stats, flip),
    }
}
