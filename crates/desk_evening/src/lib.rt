// An evening of rows as C and Rust call it (include/desk.h).
#![tactic(auto)]

ghost use Rattle.std.specs.Prelude.{◌≡◌};
ghost use Rattle.rowwise.specs.Rooms.{lends};
ghost use Rattle.rowwise.specs.Evening.{evening_of};
ghost use Rattle.desk_evening.specs.Told.{called_of, heard_of};

use rowwise::Called;
use tolerance::Limits;

// Number and place of an evening's call.
fn called_of(c: Called) -> [u64; 2]
    ensures { result ≡ called_of c }
{
    [c.number as u64, c.place as u64]
}

// Every row of a table of demands, each solved with the row's demands in the sheet: what is lent
// afterwards, five counts and three totals a row among it, and the call's number and place.
#[unsafe(no_mangle)]
pub extern "C" fn desk_evening(
    sheet: &[u8],
    rows: usize,
    table: &[f64],
    heads: &mut [f64],
    demands: &mut [f64],
    flows: &mut [f64],
    statuses: &mut [u8],
    record: &mut [u8],
    scratch: &mut [f64],
    counts: &mut [u64],
    totals: &mut [f64],
    called: &mut [u64; 2],
)
    ensures { record { called = called.exit.now; lends = lends heads.new demands.new flows.new statuses.new «record».new counts.new totals.new scratch.new } ≡ heard_of (evening_of None sheet.now rows table.now (lends heads.old demands.old flows.old statuses.old «record».old counts.old totals.old scratch.old)) }
{
    let c = rowwise::solve_evening(
        sheet, None, rows, table, heads, demands, flows, statuses, record, counts, totals, scratch,
    );
    *called = called_of(c);
}

// The same, and each row judged under these limits: seven counts a row, the last two the verdict's
// number and place.
#[unsafe(no_mangle)]
pub extern "C" fn desk_evening_verdict(
    sheet: &[u8],
    pressure: f64,
    head: f64,
    flow: f64,
    rows: usize,
    table: &[f64],
    heads: &mut [f64],
    demands: &mut [f64],
    flows: &mut [f64],
    statuses: &mut [u8],
    record: &mut [u8],
    scratch: &mut [f64],
    counts: &mut [u64],
    totals: &mut [f64],
    called: &mut [u64; 2],
)
    ensures { record { called = called.exit.now; lends = lends heads.new demands.new flows.new statuses.new «record».new counts.new totals.new scratch.new } ≡ heard_of (evening_of (Some (record { pressure = pressure; head = head; flow = flow })) sheet.now rows table.now (lends heads.old demands.old flows.old statuses.old «record».old counts.old totals.old scratch.old)) }
{
    let limits = Limits {
        pressure: pressure,
        head: head,
        flow: flow,
    };
    let c = rowwise::solve_evening(
        sheet,
        Some(limits),
        rows,
        table,
        heads,
        demands,
        flows,
        statuses,
        record,
        counts,
        totals,
        scratch,
    );
    *called = called_of(c);
}
