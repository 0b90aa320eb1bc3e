// Lines 2 to 8 of the rule, of results that a solve answered with 0.
ghost use Rattle.std.specs.Prelude.{◌≡◌, ◌≤◌, length};
ghost use Rattle.state.specs.Network.{Network};
ghost use Rattle.sale.specs.Sale.{Ample, judge_of};

use layout::Layout;
use power::PowerTable;
use tolerance::Limits;

// 0 at 0: it may be sold. Else the line of the rule that holds, and where.
#[derive(Clone, Copy)]
pub struct Verdict {
    pub number: usize,
    pub place: usize,
}

// A line of the rule holds, at a place.
fn holds(number: usize, place: usize) -> Verdict
    ensures { result ≡ record { number = number; place = place } }
{
    Verdict {
        number: number,
        place: place,
    }
}

// The verdict on results that are long enough.
pub fn judge(
    sheet: &[u8],
    l: Layout,
    table: &PowerTable,
    limits: Limits,
    trials: usize,
    heads: &[f64],
    demands: &[f64],
    flows: &[f64],
    statuses: &[u8],
    entries: &[u8],
) -> Verdict
    requires network { Network l sheet.now }
    requires ample { Ample l trials heads.now demands.now flows.now statuses.now entries.now }
    ensures { result ≡ judge_of sheet.now l limits trials heads.now demands.now flows.now statuses.now entries.now }
{
    if let Some(place) = repairs_shown::repair_shown(entries, trials) {
        return holds(2, place);
    }
    if let Some(place) = determined::undetermined(sheet, l, flows, statuses) {
        return holds(3, place);
    }
    // what flows in and out of each junction
    let mut sums = [0.0f64; 64];
    excess::imbalance(sheet, l, demands, flows, &mut sums);
    if let Some(place) = balances::unbalanced(sheet, l, &sums, limits.flow) {
        return holds(4, place);
    }
    // what each link's own law says
    let mut excess = [0.0f64; 64];
    excess::excess_flows(sheet, l, demands, flows, &mut excess);
    if let Some(place) = link_laws::unsettled(
        sheet, l, table, heads, flows, statuses, &excess, limits,
    ) {
        return holds(5, place);
    }
    if let Some(place) = held_heads::unheld(sheet, l, heads, statuses, limits.head) {
        return holds(6, place);
    }
    if let Some(place) = drawn_laws::ill_drawn(sheet, l, heads, demands, limits.flow) {
        return holds(7, place);
    }
    if let Some(place) = pressures_low::low(sheet, l, heads, limits.pressure) {
        return holds(8, place);
    }
    holds(0, 0)
}
