// The solve and the verdict in one call, for any sheet, any limits and any buffers.
ghost use Rattle.std.specs.Prelude.{◌≡◌, List, Float};
ghost use Rattle.sheet.specs.Read.{read_of};
ghost use Rattle.answers.specs.Answers.{lent};
ghost use Rattle.sale.specs.Sale.{Backed, verdict_by, sale_of};

use crate::judging::{Verdict, judge};
use answers::Answer;
use layout::Layout;
use power::PowerTable;
use tolerance::Limits;

// What a solve came to, and whether it may be sold.
#[derive(Clone, Copy)]
pub struct Sold {
    pub answer: Answer,
    pub verdict: Verdict,
}

// Line 1: the solve's number is not 0.
fn unsold(number: usize) -> Verdict
    ensures { result ≡ record { number = 1; place = number } }
{
    Verdict {
        number: 1,
        place: number,
    }
}

// The verdict on an answer to a sheet that was read, with the results and the record that were lent.
fn decide(
    sheet: &[u8],
    l: Layout,
    table: &PowerTable,
    limits: Limits,
    answer: Answer,
    heads: &[f64],
    demands: &[f64],
    flows: &[f64],
    statuses: &[u8],
    entries: &[u8],
) -> Verdict
    requires sheet_value { read_of sheet.now ≡ Ok l }
    requires backed { Backed sheet.now answer heads.now demands.now flows.now statuses.now entries.now }
    ensures { (scratch : List Float) → result ≡ verdict_by sheet.now limits (record { answer = answer; lent = lent heads.now demands.now flows.now statuses.now entries.now scratch }) (Ok l) }
{
    if answer.number != 0 {
        return unsold(answer.number);
    }
    judge(
        sheet,
        l,
        table,
        limits,
        answer.trials,
        heads,
        demands,
        flows,
        statuses,
        entries,
    )
}

// Solves a sheet that was read, and tells whether the answer may be sold.
pub fn sell_read(
    sheet: &[u8],
    l: Layout,
    table: &PowerTable,
    limits: Limits,
    heads: &mut [f64],
    demands: &mut [f64],
    flows: &mut [f64],
    statuses: &mut [u8],
    entries: &mut [u8],
    scratch: &mut [f64],
) -> Sold
    requires sheet_value { read_of sheet.now ≡ Ok l }
    ensures { record { answer = result.answer; verdict = result.verdict; lent = lent heads.new demands.new flows.new statuses.new entries.new scratch.new } ≡ sale_of sheet.now limits (lent heads.old demands.old flows.old statuses.old entries.old scratch.old) }
{
    let answer = solver::solve_read(
        sheet, l, table, heads, demands, flows, statuses, entries, scratch,
    );
    let verdict = decide(
        sheet, l, table, limits, answer, heads, demands, flows, statuses, entries,
    );
    Sold {
        answer: answer,
        verdict: verdict,
    }
}

// Solves, and tells whether the answer may be sold. A pressure must be offered at verdict 0 alone.
pub fn sell(
    sheet: &[u8],
    limits: Limits,
    heads: &mut [f64],
    demands: &mut [f64],
    flows: &mut [f64],
    statuses: &mut [u8],
    entries: &mut [u8],
    scratch: &mut [f64],
) -> Sold
    ensures { record { answer = result.answer; verdict = result.verdict; lent = lent heads.new demands.new flows.new statuses.new entries.new scratch.new } ≡ sale_of sheet.now limits (lent heads.old demands.old flows.old statuses.old entries.old scratch.old) }
{
    match sheet::read(sheet) {
        Err(r) => {
            let answer = answers::refuse(r);
            let verdict = unsold(answer.number);
            Sold {
                answer: answer,
                verdict: verdict,
            }
        }
        Ok(l) => {
            let table = power::power_table();
            sell_read(
                sheet, l, &table, limits, heads, demands, flows, statuses, entries, scratch,
            )
        }
    }
}
