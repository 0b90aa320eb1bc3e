// The changes of a link's status (document 01, item 5): pipe.rs, valve.rs and link.rs; and why (document 02, [2]).
#![tactic(auto)]

ghost use Rattle.std.specs.Prelude.{◌≡◌};
ghost use Rattle.status.specs.Rules.{becomes_if, closed_if_negative, pipe_status, prv_status, psv_status, updated_of, is_active};

use causes::Cause;
use constants::{H_TOL, Q_TOL};
use records::{LinkKind, Status};

// The new status of a link and its cause, if a rule gives one.
pub type Change = Option<(Status, Cause)>;

// A pipe that a tank shut opens again.
fn pipe_status(status: Status) -> Change
    ensures { result ≡ pipe_status status }
{
    match status {
        Status::TempClosed => Some((Status::Open, Cause::Reopened)),
        _ => None,
    }
}

// A status with its cause, if the test holds.
#[tactic(auto, unfolding(crate::specs::Rules::becomes_if))]
fn becomes_if(test: bool, status: Status, cause: Cause) -> Change
    ensures { result ≡ becomes_if test status cause }
{
    if test { Some((status, cause)) } else { None }
}

// Closed if the flow is negative.
fn closed_if_negative(q: f64, change: Change) -> Change
    ensures { result ≡ closed_if_negative q change }
{
    if q < -Q_TOL {
        return Some((Status::Closed, Cause::ReverseFlow));
    }
    change
}

// The new status of a PRV, by the head that it holds at its end.
fn prv_status(target: f64, status: Status, q: f64, head_start: f64, head_end: f64) -> Change
    ensures { result ≡ prv_status target status q head_start head_end }
{
    let inlet_low = head_start < target - H_TOL;
    let outlet_high = head_end > target + H_TOL;
    match status {
        Status::Active => {
            closed_if_negative(q, becomes_if(inlet_low, Status::Open, Cause::InletTooLow))
        }
        Status::Open => {
            closed_if_negative(
                q,
                becomes_if(outlet_high, Status::Active, Cause::OutletTooHigh),
            )
        }
        Status::Closed => {
            if (head_start >= target + H_TOL) & (head_end < target - H_TOL) {
                return Some((Status::Active, Cause::Reopened));
            }
            let opens = inlet_low & (head_start > head_end + H_TOL);
            becomes_if(opens, Status::Open, Cause::Reopened)
        }
        Status::XPressure => closed_if_negative(q, None),
        _ => None,
    }
}

// The new status of a PSV, by the head that it holds at its start.
fn psv_status(target: f64, status: Status, q: f64, head_start: f64, head_end: f64) -> Change
    ensures { result ≡ psv_status target status q head_start head_end }
{
    let inlet_low = head_start < target - H_TOL;
    let outlet_high = head_end > target + H_TOL;
    match status {
        Status::Active => {
            closed_if_negative(
                q,
                becomes_if(outlet_high, Status::Open, Cause::OutletTooHigh),
            )
        }
        Status::Open => {
            closed_if_negative(q, becomes_if(inlet_low, Status::Active, Cause::InletTooLow))
        }
        Status::Closed => {
            let falls = head_start > head_end + H_TOL;
            if outlet_high & falls {
                return Some((Status::Open, Cause::Reopened));
            }
            let regulates = (head_start > target + H_TOL) & falls;
            becomes_if(regulates, Status::Active, Cause::Reopened)
        }
        Status::XPressure => closed_if_negative(q, None),
        _ => None,
    }
}

// The new status of a link and its cause.
pub fn updated(
    kind: LinkKind,
    status: Status,
    setting: f64,
    q: f64,
    head_start: f64,
    head_end: f64,
    elevation_start: f64,
    elevation_end: f64,
) -> Change
    ensures { result ≡ updated_of kind status setting q head_start head_end elevation_start elevation_end }
{
    match kind {
        LinkKind::Pipe => pipe_status(status),
        LinkKind::Prv => prv_status(setting + elevation_end, status, q, head_start, head_end),
        LinkKind::Psv => psv_status(setting + elevation_start, status, q, head_start, head_end),
        _ => None,
    }
}

// Whether a valve regulates.
#[tactic(auto, unfolding(crate::specs::Rules::is_active))]
pub fn is_active(status: Status) -> bool
    ensures { result ≡ is_active status }
{
    // a freed valve holds nothing
    matches!(status, Status::Active)
}
