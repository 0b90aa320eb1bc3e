// The start of a solve that is taken one trial at a time, as C and Rust call it (include/desk.h).
#![tactic(auto)]

ghost use Rattle.std.specs.Prelude.{◌≡◌};
ghost use Rattle.held.specs.Held.{held};
ghost use Rattle.held_start.specs.Start.{start_held};
ghost use Rattle.desk_start.specs.Begun.{begun_of};

// Starts a solve that is taken one trial at a time: the state, and what is told as six counts (how,
// number, place, trials, freed, grounded).
#[unsafe(no_mangle)]
pub extern "C" fn desk_start(
    sheet: &[u8],
    h: &mut [f64; 64],
    d: &mut [f64; 64],
    f: &mut [f64; 64],
    q: &mut [f64; 128],
    c: &mut [u8; 128],
    z: &mut [u8; 64],
    sums: &mut [f64; 5],
    counts: &mut [u64; 6],
    told: &mut [u64; 6],
)
    ensures { record { told = told.exit.now; held = held h.new d.new f.new q.new c.new z.new sums.new counts.new } ≡ begun_of (start_held sheet.now (held h.old d.old f.old q.old c.old z.old sums.old counts.old)) }
{
    let t = held_start::start(sheet, h, d, f, q, c, z, sums, counts);
    *told = held::counts_of(t);
}
