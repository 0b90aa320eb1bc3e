// One row: the solve of its sheet, which was read but for its demands, and the answer put into the row's room.
ghost use Rattle.std.specs.Prelude.{◌≡◌, ◌≤◌, length};
ghost use Rattle.sheet.specs.Read.{read_of};
ghost use Rattle.entries.specs.Entries.{none};
ghost use Rattle.answers.specs.Answers.{failed_of};
ghost use Rattle.row_reading.specs.RowReading.{unless_bad};
ghost use Rattle.rowwise.specs.Rooms.{lends};
ghost use Rattle.rowwise.specs.Evening.{width_of, counts_put, totals_put, verdict_put, row_of, refused_counts};

use answers::Answer;
use layout::Layout;
use power::PowerTable;
use refusals::Refusal;
use sale::Verdict;
use tolerance::Limits;

// How many counts a row has: number, place, trials, freed, grounded; then the verdict's number and place.
pub fn width(judging: Option<Limits>) -> usize
    ensures { result ≡ width_of judging }
{
    match judging {
        None => 5,
        Some(_) => 7,
    }
}

fn put_counts(a: Answer, counts: &mut [u64])
    requires { 5 ≤ length counts.old }
    ensures { counts.new ≡ counts_put a counts.old }
{
    counts[0] = a.number as u64;
    counts[1] = a.place as u64;
    counts[2] = a.trials as u64;
    counts[3] = a.freed as u64;
    counts[4] = a.grounded as u64;
}

fn put_totals(a: Answer, totals: &mut [f64])
    requires { 3 ≤ length totals.old }
    ensures { totals.new ≡ totals_put a totals.old }
{
    totals[0] = a.demand;
    totals[1] = a.supply;
    totals[2] = a.error;
}

fn put_verdict(v: Verdict, counts: &mut [u64])
    requires { 7 ≤ length counts.old }
    ensures { counts.new ≡ verdict_put v counts.old }
{
    counts[5] = v.number as u64;
    counts[6] = v.place as u64;
}

// The counts and totals of a row with a bad demand at a place.
fn refuse_one(place: usize, judging: Option<Limits>, counts: &mut [u64], totals: &mut [f64])
    requires { (width_of judging ≤ length counts.old) × (3 ≤ length totals.old) }
    ensures counts_after { counts.new ≡ refused_counts judging place counts.old }
    ensures totals_after { totals.new ≡ totals_put (failed_of 3 place none) totals.old }
{
    let a = answers::refuse(Refusal::Field(place));
    put_totals(a, totals);
    put_counts(a, counts);
    if let Some(_) = judging {
        put_verdict(
            Verdict {
                number: 1,
                place: a.number,
            },
            counts,
        );
    }
}

// A row's good sheet solved in the row's room.
fn solve_good(
    sheet: &[u8],
    l: Layout,
    powers: &PowerTable,
    judging: Option<Limits>,
    heads: &mut [f64],
    demands: &mut [f64],
    flows: &mut [f64],
    statuses: &mut [u8],
    entries: &mut [u8],
    counts: &mut [u64],
    totals: &mut [f64],
    scratch: &mut [f64],
)
    requires sheet_value { read_of sheet.now ≡ Ok l }
    requires judging_in_bounds { (width_of judging ≤ length counts.old) × (3 ≤ length totals.old) }
    ensures { lends heads.new demands.new flows.new statuses.new entries.new counts.new totals.new scratch.new ≡ row_of judging sheet.now (lends heads.old demands.old flows.old statuses.old entries.old counts.old totals.old scratch.old) }
{
    match judging {
        None => {
            let a = solver::solve_read(
                sheet, l, powers, heads, demands, flows, statuses, entries, scratch,
            );
            put_counts(a, counts);
            put_totals(a, totals);
        }
        Some(limits) => {
            let s = sale::sell_read(
                sheet, l, powers, limits, heads, demands, flows, statuses, entries, scratch,
            );
            put_counts(s.answer, counts);
            put_totals(s.answer, totals);
            put_verdict(s.verdict, counts);
        }
    }
}

// A row's sheet solved in the row's room, or refused where a bad demand was found.
pub fn solve_one(
    sheet: &[u8],
    l: Layout,
    powers: &PowerTable,
    bad: Option<usize>,
    judging: Option<Limits>,
    heads: &mut [f64],
    demands: &mut [f64],
    flows: &mut [f64],
    statuses: &mut [u8],
    entries: &mut [u8],
    counts: &mut [u64],
    totals: &mut [f64],
    scratch: &mut [f64],
)
    requires sheet_value { read_of sheet.now ≡ unless_bad bad l }
    requires judging_in_bounds { (width_of judging ≤ length counts.old) × (3 ≤ length totals.old) }
    ensures { lends heads.new demands.new flows.new statuses.new entries.new counts.new totals.new scratch.new ≡ row_of judging sheet.now (lends heads.old demands.old flows.old statuses.old entries.old counts.old totals.old scratch.old) }
{
    match bad {
        Some(place) => refuse_one(place, judging, counts, totals),
        None => solve_good(
            sheet, l, powers, judging, heads, demands, flows, statuses, entries, counts, totals,
            scratch,
        ),
    }
}
