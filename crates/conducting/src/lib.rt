// Whether a link joins the heads of its ends, and which head an Active regulator gives.
#![tactic(auto)]

ghost use Rattle.std.specs.Prelude.{◌≡◌};
ghost use Rattle.conducting.specs.Conducting.{pipe_conducts, controlled, valve_conducts, conducts_of, held_by, holds_of};

use constants::Q_ZERO;
use records::{Link, LinkKind, Status};
use status::is_active;

// A pipe: only Closed and TempClosed shut it, and a flow that presses on its check valve.
fn pipe_conducts(check: bool, status: Status, flow: f64) -> bool
    ensures { result ≡ pipe_conducts check status flow }
{
    match status {
        Status::Closed | Status::TempClosed => return false,
        _ => {}
    }
    !(check & (flow <= -Q_ZERO))
}

// A valve that is neither closed nor open, by its kind.
fn controlled(kind: LinkKind, active: bool, setting: f64, flow: f64) -> bool
    ensures { result ≡ controlled kind active setting flow }
{
    match kind {
        LinkKind::Prv | LinkKind::Psv => !active,
        LinkKind::Fcv => flow < setting,
        LinkKind::Pcv => setting > 0.0,
        _ => true,
    }
}

fn valve_conducts(kind: LinkKind, setting: f64, status: Status, flow: f64) -> bool
    ensures { result ≡ valve_conducts kind setting status flow }
{
    match status {
        Status::Closed | Status::TempClosed | Status::FixedClosed => false,
        Status::Open | Status::FixedOpen => true,
        Status::Active => controlled(kind, true, setting, flow),
        _ => controlled(kind, false, setting, flow),
    }
}

// Whether a link conducts at a status and a flow, which are the answer's and not the sheet's.
pub fn conducts(k: Link, status: Status, flow: f64) -> bool
    ensures { result ≡ conducts_of k status flow }
{
    let kind = k.kind;
    if let LinkKind::Pipe = kind {
        return pipe_conducts(k.check, status, flow);
    }
    valve_conducts(kind, k.setting, status, flow)
}

// The node whose head a link of this kind gives while it is Active.
fn held_by(kind: LinkKind, start: usize, end: usize) -> Option<usize>
    ensures { result ≡ held_by kind start end }
{
    match kind {
        LinkKind::Prv => Some(end),
        LinkKind::Psv => Some(start),
        _ => None,
    }
}

// The node whose head a link gives at a status.
pub fn holds(k: Link, status: Status) -> Option<usize>
    ensures { result ≡ holds_of k status }
{
    if !is_active(status) {
        return None;
    }
    let kind = k.kind;
    held_by(kind, k.start, k.end)
}
