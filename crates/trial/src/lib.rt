// One trial, in the order of hydraulicsolver.rs.
#![tactic(auto)]

ghost use Rattle.std.specs.Prelude.{◌≡◌, ◌≤◌, length};
ghost use Rattle.columns.specs.Columns.{zeros};
ghost use Rattle.numbering.specs.Numbering.{RowsRight};
ghost use Rattle.links_at.specs.LinksAt.{LinksAt};
ghost use Rattle.state.specs.Network.{Network};
ghost use Rattle.state.specs.State.{state};
ghost use Rattle.step.specs.Step.{Room, outcome};
ghost use Rattle.trial.specs.Trial.{factors_of, trial_of};

use damping::Damping;
use entries::Entry;
use layout::Layout;
use power::PowerTable;

// One trial. A failed one changes statuses or grounded marks alone. The scratch, all +0.0,
// becomes the matrix and then its factors.
pub fn trial(
    sheet: &[u8],
    l: Layout,
    unknowns: &[usize],
    places: &[usize],
    listed: &[usize],
    table: &PowerTable,
    d: Damping,
    heads: &mut [f64],
    demands: &mut [f64],
    drawn: &mut [f64],
    flows: &mut [f64],
    statuses: &mut [u8],
    grounded: &mut [bool],
    scratch: &mut [f64],
) -> Entry
    requires network { Network l sheet.now }
    requires links_at { LinksAt l sheet.now places.now listed.now }
    requires nodes_in_bounds { (l.nodes ≤ length unknowns.now) × (RowsRight l sheet.now unknowns.now) }
    requires room { Room l (state heads.old demands.old drawn.old flows.old statuses.old grounded.old) }
    requires scratch_value { scratch.old ≡ zeros 4096 }
    ensures state { outcome result (state heads.new demands.new drawn.new flows.new statuses.new grounded.new) ≡ trial_of sheet.now l d (state heads.old demands.old drawn.old flows.old statuses.old grounded.old) }
    ensures factors { scratch.new ≡ factors_of sheet.now l (state heads.old demands.old drawn.old flows.old statuses.old grounded.old) }
{
    let mut excess = [0.0f64; 64];
    let mut rhs = [0.0f64; 64];
    let mut g = [0.0f64; 128];
    let mut y = [0.0f64; 128];
    let counted = drawing::counts(l.pressures, drawn, demands);
    excess::excess_flows(sheet, l, counted, flows, &mut excess);
    assembly::assemble(
        sheet, l, unknowns, table, heads, demands, drawn, flows, statuses, grounded, &excess,
        scratch, &mut rhs, &mut g, &mut y,
    );
    match linear::factor(scratch, l.unknowns) {
        Err(u) => {
            let node = numbering::node_of(sheet, l, unknowns, u);
            repair::repair(sheet, l, places, listed, statuses, grounded, node)
        }
        Ok(()) => {
            substitution::substitute(scratch, l.unknowns, &mut rhs);
            step::step(
                sheet, l, unknowns, places, listed, d, &g, &y, &rhs, heads, demands, drawn, flows,
                statuses, grounded,
            )
        }
    }
}
