// The rows in order, and the whole call.
ghost use Rattle.std.specs.Prelude.{◌≡◌, ◌+◌, ◌*◌, ◌≤◌, ◌<◌, length};
ghost use Rattle.sheet.specs.Read.{read_of};
ghost use Rattle.solver.specs.Solve.{trials_of};
ghost use Rattle.rowwise.specs.Rooms.{lends, lengths_of, Fits};
ghost use Rattle.rowwise.specs.Evening.{width_of, row_done, rows_done, evening_of};

use crate::admitting::{Called, Lengths, admitted};
use crate::single::{solve_one, width};
use layout::Layout;
use power::PowerTable;
use tolerance::Limits;

// Row r: its demands put into a copy of the sheet, which is solved in the row's part of every buffer.
fn solve_row(
    sheet: &[u8],
    l: Layout,
    powers: &PowerTable,
    trials: usize,
    judging: Option<Limits>,
    r: usize,
    table: &[f64],
    heads: &mut [f64],
    demands: &mut [f64],
    flows: &mut [f64],
    statuses: &mut [u8],
    entries: &mut [u8],
    counts: &mut [u64],
    totals: &mut [f64],
    scratch: &mut [f64],
    copy: &mut [u8],
)
    requires sheet_value { read_of sheet.now ≡ Ok l }
    requires trials_value { trials ≡ trials_of sheet.now }
    requires copy_len { length copy.old ≡ length sheet.now }
    requires fits { Fits l trials (width_of judging) (r + 1) (lengths_of table.now (lends heads.old demands.old flows.old statuses.old entries.old counts.old totals.old scratch.old)) }
    ensures { lends heads.new demands.new flows.new statuses.new entries.new counts.new totals.new scratch.new ≡ row_done judging sheet.now l table.now r (lends heads.old demands.old flows.old statuses.old entries.old counts.old totals.old scratch.old) }
{
    let wide = width(judging);
    let n = r * l.nodes;
    let n2 = n + l.nodes;
    let k = r * l.links;
    let k2 = k + l.links;
    let e = r * (4 * trials);
    let e2 = e + 4 * trials;
    let c = r * wide;
    let c2 = c + wide;
    let t = r * 3;
    let t2 = t + 3;
    let bad = row_sheet::bad_demand(l, table, r);
    columns::copy_first(copy, sheet, sheet.len());
    row_sheet::put_row(copy, l, table, r);
    solve_one(
        copy,
        l,
        powers,
        bad,
        judging,
        &mut heads[n..n2],
        &mut demands[n..n2],
        &mut flows[k..k2],
        &mut statuses[k..k2],
        &mut entries[e..e2],
        &mut counts[c..c2],
        &mut totals[t..t2],
        scratch,
    );
}

fn solve_rows(
    sheet: &[u8],
    l: Layout,
    powers: &PowerTable,
    trials: usize,
    judging: Option<Limits>,
    rows: usize,
    table: &[f64],
    heads: &mut [f64],
    demands: &mut [f64],
    flows: &mut [f64],
    statuses: &mut [u8],
    entries: &mut [u8],
    counts: &mut [u64],
    totals: &mut [f64],
    scratch: &mut [f64],
    copy: &mut [u8],
)
    requires sheet_value { read_of sheet.now ≡ Ok l }
    requires trials_value { trials ≡ trials_of sheet.now }
    requires copy_len { length copy.old ≡ length sheet.now }
    requires fits { Fits l trials (width_of judging) rows (lengths_of table.now (lends heads.old demands.old flows.old statuses.old entries.old counts.old totals.old scratch.old)) }
    ensures { lends heads.new demands.new flows.new statuses.new entries.new counts.new totals.new scratch.new ≡ rows_done judging sheet.now l table.now rows (lends heads.old demands.old flows.old statuses.old entries.old counts.old totals.old scratch.old) }
{
    for r in 0..rows {
        solve_row(
            sheet, l, powers, trials, judging, r, table, heads, demands, flows, statuses, entries,
            counts, totals, scratch, copy,
        );
    }
}

// Every row of the table, in order, for any sheet, any number of rows and any buffers.
pub fn solve_evening(
    sheet: &[u8],
    judging: Option<Limits>,
    rows: usize,
    table: &[f64],
    heads: &mut [f64],
    demands: &mut [f64],
    flows: &mut [f64],
    statuses: &mut [u8],
    entries: &mut [u8],
    counts: &mut [u64],
    totals: &mut [f64],
    scratch: &mut [f64],
) -> Called
    ensures { record { called = result; lends = lends heads.new demands.new flows.new statuses.new entries.new counts.new totals.new scratch.new } ≡ evening_of judging sheet.now rows table.now (lends heads.old demands.old flows.old statuses.old entries.old counts.old totals.old scratch.old) }
{
    match sheet::read(sheet) {
        Err(r) => Called {
            number: refusals::refusal_number(r),
            place: refusals::refusal_place(r),
        },
        Ok(l) => {
            let options = records::options_of(sheet);
            let trials = options.trials;
            let called = admitted(
                l,
                trials,
                width(judging),
                rows,
                Lengths {
                    table: table.len(),
                    heads: heads.len(),
                    demands: demands.len(),
                    flows: flows.len(),
                    statuses: statuses.len(),
                    entries: entries.len(),
                    counts: counts.len(),
                    totals: totals.len(),
                    scratch: scratch.len(),
                },
            );
            if called.number != 0 {
                return called;
            }
            let powers = power::power_table();
            let size = sheet.len();
            let mut copy = [0u8; 9199];
            solve_rows(
                sheet,
                l,
                &powers,
                trials,
                judging,
                rows,
                table,
                heads,
                demands,
                flows,
                statuses,
                entries,
                counts,
                totals,
                scratch,
                &mut copy[..size],
            );
            called
        }
    }
}
