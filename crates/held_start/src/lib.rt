// The start of a solve whose state the caller holds.
#![tactic(auto)]

ghost use Rattle.std.specs.Prelude.{◌≡◌};
ghost use Rattle.held.specs.Held.{held};
ghost use Rattle.held_start.specs.Start.{start_held};

use entries::Tally;
use held::{Taken, keep, more, refused};

// Starts the solve of any sheet: its state, and that trials are to be taken; or a refusal, 1 to 4,
// and nothing changes.
pub fn start(
    sheet: &[u8],
    h: &mut [f64; 64],
    d: &mut [f64; 64],
    f: &mut [f64; 64],
    q: &mut [f64; 128],
    c: &mut [u8; 128],
    z: &mut [u8; 64],
    sums: &mut [f64; 5],
    counts: &mut [u64; 6],
) -> Taken
    ensures { record { taken = result; held = held h.new d.new f.new q.new c.new z.new sums.new counts.new } ≡ start_held sheet.now (held h.old d.old f.old q.old c.old z.old sums.old counts.old) }
{
    match sheet::read(sheet) {
        Err(r) => refused(refusals::refusal_number(r), refusals::refusal_place(r)),
        Ok(l) => {
            starts::start_columns(sheet, l, h, d, f, q, c);
            *z = [0u8; 64];
            let none = Tally {
                trials: 0,
                freed: 0,
                grounded: 0,
            };
            keep(entries::damping_start(), more(none), sums, counts)
        }
    }
}
