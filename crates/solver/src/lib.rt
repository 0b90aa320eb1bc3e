// The whole solve, for any sheet and any buffers.
#![tactic(auto)]

ghost use Rattle.std.specs.Prelude.{◌≡◌, ◌*◌, ◌≤◌, length};
ghost use Rattle.sheet.specs.Read.{read_of};
ghost use Rattle.state.specs.State.{state};
ghost use Rattle.answers.specs.Answers.{lent, Enough};
ghost use Rattle.conclusion.specs.Conclusion.{emptied};
ghost use Rattle.trial.specs.Trial.{Room, repair_of};
ghost use Rattle.solver.specs.Solve.{trials_of, start_of, run_of, solved_with, after_read, solve_of};

use answers::Answer;
use layout::Layout;
use power::PowerTable;
use runs::Ran;

// The run of a sheet that was read, from its first columns. The power's table is lent down to here: it
// is built where the sheet was read, once for many solves.
fn run(
    sheet: &[u8],
    l: Layout,
    table: &PowerTable,
    trials: usize,
    h: &mut [f64],
    d: &mut [f64],
    f: &mut [f64],
    q: &mut [f64],
    c: &mut [u8],
    z: &mut [bool],
    entries: &mut [u8],
    scratch: &mut [f64],
) -> Ran
    requires sheet_value { read_of sheet.now ≡ Ok l }
    requires trials_value { trials ≡ trials_of sheet.now }
    requires z_value { state h.old d.old f.old q.old c.old z.old ≡ start_of sheet.now l }
    requires room { Room l (state h.old d.old f.old q.old c.old z.old) }
    requires trials_in_bounds { (4 * trials ≤ length entries.old) × (4096 ≤ length scratch.old) }
    ensures state { record { ran = result; bytes = entries.new; state = state h.new d.new f.new q.new c.new z.new } ≡ run_of repair_of sheet.now l entries.old }
    ensures emptied { scratch.new ≡ emptied scratch.old }
{
    let mut unknowns = [0usize; 64];
    let mut places = [0usize; 65];
    let mut listed = [0usize; 256];
    numbering::number_unknowns(sheet, l, &mut unknowns);
    links_at::list_at_nodes(sheet, l, &mut places, &mut listed);
    runs::run_trials(
        sheet,
        l,
        trials,
        &unknowns,
        &places,
        &listed,
        table,
        h,
        d,
        f,
        q,
        c,
        z,
        entries,
        &mut scratch[..4096],
    )
}

// The solve of a sheet that was read, with buffers that are long enough. The run's columns are not the
// caller's, who gets them only of a run that converged.
fn solved(
    sheet: &[u8],
    l: Layout,
    table: &PowerTable,
    trials: usize,
    heads: &mut [f64],
    demands: &mut [f64],
    flows: &mut [f64],
    statuses: &mut [u8],
    entries: &mut [u8],
    scratch: &mut [f64],
) -> Answer
    requires sheet_value { read_of sheet.now ≡ Ok l }
    requires trials_value { trials ≡ trials_of sheet.now }
    requires enough { Enough l trials (lent heads.old demands.old flows.old statuses.old entries.old scratch.old) }
    ensures { record { answer = result; lent = lent heads.new demands.new flows.new statuses.new entries.new scratch.new } ≡ solved_with repair_of sheet.now l (lent heads.old demands.old flows.old statuses.old entries.old scratch.old) }
{
    let mut h = [0.0f64; 64];
    let mut d = [0.0f64; 64];
    let mut f = [0.0f64; 64];
    let mut q = [0.0f64; 128];
    let mut c = [0u8; 128];
    let mut z = [false; 64];
    starts::start_columns(sheet, l, &mut h, &mut d, &mut f, &mut q, &mut c);
    let ran = run(
        sheet, l, table, trials, &mut h, &mut d, &mut f, &mut q, &mut c, &mut z, entries, scratch,
    );
    let ended = ran.ended;
    let tally = ran.tally;
    conclusion::conclude(
        sheet, l, trials, ended, tally, &h, &d, &f, &q, &c, heads, demands, flows, statuses,
    )
}

// The solve of a sheet that was read.
pub fn solve_read(
    sheet: &[u8],
    l: Layout,
    table: &PowerTable,
    heads: &mut [f64],
    demands: &mut [f64],
    flows: &mut [f64],
    statuses: &mut [u8],
    entries: &mut [u8],
    scratch: &mut [f64],
) -> Answer
    requires sheet_value { read_of sheet.now ≡ Ok l }
    ensures { record { answer = result; lent = lent heads.new demands.new flows.new statuses.new entries.new scratch.new } ≡ after_read repair_of sheet.now (lent heads.old demands.old flows.old statuses.old entries.old scratch.old) (Ok l) }
{
    let options = records::options_of(sheet);
    let trials = options.trials;
    match answers::too_short(
        l,
        trials,
        heads.len(),
        demands.len(),
        flows.len(),
        statuses.len(),
        entries.len(),
        scratch.len(),
    ) {
        Some(place) => answers::refused(5, place),
        None => solved(
            sheet, l, table, trials, heads, demands, flows, statuses, entries, scratch,
        ),
    }
}

pub fn solve(
    sheet: &[u8],
    heads: &mut [f64],
    demands: &mut [f64],
    flows: &mut [f64],
    statuses: &mut [u8],
    entries: &mut [u8],
    scratch: &mut [f64],
) -> Answer
    ensures { record { answer = result; lent = lent heads.new demands.new flows.new statuses.new entries.new scratch.new } ≡ solve_of sheet.now (lent heads.old demands.old flows.old statuses.old entries.old scratch.old) }
{
    match sheet::read(sheet) {
        Err(r) => answers::refuse(r),
        Ok(l) => {
            let table = power::power_table();
            solve_read(
                sheet, l, &table, heads, demands, flows, statuses, entries, scratch,
            )
        }
    }
}
