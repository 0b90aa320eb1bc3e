// The solver as C and Rust call it (include/desk.h).
#![tactic(auto)]

ghost use Rattle.std.specs.Prelude.{◌≡◌};
ghost use Rattle.answers.specs.Answers.{lent};
ghost use Rattle.solver.specs.Solve.{solve_of};
ghost use Rattle.sale.specs.Sale.{sale_of};
ghost use Rattle.desk.specs.Desk.{counts_of, totals_of, place_of};

use answers::Answer;
use sale::Verdict;
use tolerance::Limits;

// Number, place, trials, freed valves and grounded nodes of an answer.
fn counts_of(a: Answer) -> [u64; 5]
    ensures { result ≡ counts_of a }
{
    [
        a.number as u64,
        a.place as u64,
        a.trials as u64,
        a.freed as u64,
        a.grounded as u64,
    ]
}

// Total demand, total supply and error.
fn totals_of(a: Answer) -> [f64; 3]
    ensures { result ≡ totals_of a }
{
    [a.demand, a.supply, a.error]
}

// Number and place of a verdict.
fn place_of(v: Verdict) -> [u64; 2]
    ensures { result ≡ place_of v }
{
    [v.number as u64, v.place as u64]
}

// The solve of any sheet with any buffers: what is lent afterwards, and the answer as counts
// (number, place, trials, freed, grounded) and totals (demand, supply, error).
#[unsafe(no_mangle)]
pub extern "C" fn desk_solve(
    sheet: &[u8],
    heads: &mut [f64],
    demands: &mut [f64],
    flows: &mut [f64],
    statuses: &mut [u8],
    record: &mut [u8],
    scratch: &mut [f64],
    counts: &mut [u64; 5],
    totals: &mut [f64; 3],
)
    ensures lent { lent heads.new demands.new flows.new statuses.new «record».new scratch.new ≡ (solve_of sheet.now (lent heads.old demands.old flows.old statuses.old «record».old scratch.old)).lent }
    ensures counts { counts.new ≡ counts_of (solve_of sheet.now (lent heads.old demands.old flows.old statuses.old «record».old scratch.old)).answer }
    ensures totals { totals.new ≡ totals_of (solve_of sheet.now (lent heads.old demands.old flows.old statuses.old «record».old scratch.old)).answer }
{
    let a = solver::solve(sheet, heads, demands, flows, statuses, record, scratch);
    *counts = counts_of(a);
    *totals = totals_of(a);
}

// The same, and whether the answer may be sold under these limits: the verdict's number and place.
#[unsafe(no_mangle)]
pub extern "C" fn desk_verdict(
    sheet: &[u8],
    pressure: f64,
    head: f64,
    flow: f64,
    heads: &mut [f64],
    demands: &mut [f64],
    flows: &mut [f64],
    statuses: &mut [u8],
    record: &mut [u8],
    scratch: &mut [f64],
    counts: &mut [u64; 5],
    totals: &mut [f64; 3],
    verdict: &mut [u64; 2],
)
    ensures lent { lent heads.new demands.new flows.new statuses.new «record».new scratch.new ≡ (sale_of sheet.now (record { pressure = pressure; head = head; flow = flow }) (lent heads.old demands.old flows.old statuses.old «record».old scratch.old)).lent }
    ensures counts { counts.new ≡ counts_of (sale_of sheet.now (record { pressure = pressure; head = head; flow = flow }) (lent heads.old demands.old flows.old statuses.old «record».old scratch.old)).answer }
    ensures totals { totals.new ≡ totals_of (sale_of sheet.now (record { pressure = pressure; head = head; flow = flow }) (lent heads.old demands.old flows.old statuses.old «record».old scratch.old)).answer }
    ensures verdict { verdict.new ≡ place_of (sale_of sheet.now (record { pressure = pressure; head = head; flow = flow }) (lent heads.old demands.old flows.old statuses.old «record».old scratch.old)).verdict }
{
    let limits = Limits {
        pressure: pressure,
        head: head,
        flow: flow,
    };
    let s = sale::sell(
        sheet, limits, heads, demands, flows, statuses, record, scratch,
    );
    *counts = counts_of(s.answer);
    *totals = totals_of(s.answer);
    *verdict = place_of(s.verdict);
}
