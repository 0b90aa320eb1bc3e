// One trial at a time, as C and Rust call it (include/desk.h); the start stands in desk_start.
#![tactic(auto)]

ghost use Rattle.std.specs.Prelude.{◌≡◌};
ghost use Rattle.answers.specs.Answers.{lent};
ghost use Rattle.held.specs.Held.{held};
ghost use Rattle.stepping.specs.Taking.{take_of};
ghost use Rattle.desk_steps.specs.Steps.{passed_of};

// One trial of any sheet with any state and any buffers, and what is told as six counts (how, number,
// place, trials, freed, grounded).
#[unsafe(no_mangle)]
pub extern "C" fn desk_trial(
    sheet: &[u8],
    h: &mut [f64; 64],
    d: &mut [f64; 64],
    f: &mut [f64; 64],
    q: &mut [f64; 128],
    c: &mut [u8; 128],
    z: &mut [u8; 64],
    sums: &mut [f64; 5],
    counts: &mut [u64; 6],
    heads: &mut [f64],
    demands: &mut [f64],
    flows: &mut [f64],
    statuses: &mut [u8],
    record: &mut [u8],
    scratch: &mut [f64],
    told: &mut [u64; 6],
)
    ensures { record { told = told.exit.now; held = held h.new d.new f.new q.new c.new z.new sums.new counts.new; lent = lent heads.new demands.new flows.new statuses.new «record».new scratch.new } ≡ passed_of (take_of sheet.now (held h.old d.old f.old q.old c.old z.old sums.old counts.old) (lent heads.old demands.old flows.old statuses.old «record».old scratch.old)) }
{
    let t = stepping::take(
        sheet, h, d, f, q, c, z, sums, counts, heads, demands, flows, statuses, record, scratch,
    );
    *told = held::counts_of(t);
}
