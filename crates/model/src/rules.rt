// One decision over the link's kind: its coefficients.
ghost use Rattle.std.specs.Prelude.{◌≡◌};
ghost use Rattle.model.specs.Rules.{coefficients_of};

use coefficient::Coefficients;
use pipes::pipe_rule;
use power::PowerTable;
use records::{Link, LinkKind, Status};
use valves::valve_rule;

// The coefficients of a link at a flow and a status, which are the solve's and not the sheet's.
pub fn coefficients(
    link: Link,
    status: Status,
    q: f64,
    excess_start: f64,
    excess_end: f64,
    elevation_start: f64,
    elevation_end: f64,
    table: &PowerTable,
) -> Coefficients
    ensures { result ≡ coefficients_of link status q excess_start excess_end elevation_start elevation_end }
{
    let kind = link.kind;
    if let LinkKind::Pipe = kind {
        return pipe_rule(link.check, link.minor, link.resistance, status, q, table);
    }
    valve_rule(
        link,
        status,
        q,
        excess_start,
        excess_end,
        elevation_start,
        elevation_end,
    )
}
