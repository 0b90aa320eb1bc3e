// The valves' coefficients.
#![tactic(auto)]

ghost use Rattle.std.specs.Prelude.{◌≡◌};
ghost use Rattle.valves.specs.Valve.{valve_coefficients, minor_loss, pcv_minor_loss, fcv_of, right_side, prv_of, psv_of, regulator_of, valve_of};

use coefficient::{Coefficients, held, simple};
use constants::{BIG_VALUE, LOSS_FACTOR, RQ_TOL, SMALL_VALUE};
use float::{abs, clamp, smaller, whole_power};
use records::{Link, LinkKind, Status};
use status::is_active;

// A valve with the minor loss coefficient km.
fn valve_coefficients(q: f64, km: f64) -> Coefficients
    ensures { result ≡ valve_coefficients q km }
{
    if km > 0.0 {
        let hgrad = 2.0 * km * abs(q);
        // too small a gradient
        if hgrad < RQ_TOL {
            let hloss = q * RQ_TOL;
            return simple(1.0 / RQ_TOL, hloss / RQ_TOL);
        }
        let hloss = q * hgrad / 2.0;
        return simple(1.0 / hgrad, hloss / hgrad);
    }
    simple(1.0 / SMALL_VALUE, q)
}

// 0.02517 * k / d^4.
fn minor_loss(k: f64, diameter: f64) -> f64
    ensures { result ≡ minor_loss k diameter }
{
    LOSS_FACTOR * k / whole_power(diameter, 4)
}

// The minor loss coefficient of a PCV.
fn pcv_minor_loss(setting: f64, minor: f64, diameter: f64) -> f64
    ensures { result ≡ pcv_minor_loss setting minor diameter }
{
    let k_open = minor_loss(minor, diameter);
    if setting <= 0.0 {
        return BIG_VALUE;
    }
    if setting >= 100.0 {
        return k_open;
    }
    let ratio = clamp(setting / 100.0, SMALL_VALUE, 1.0);
    smaller(k_open / whole_power(ratio, 2), BIG_VALUE)
}

// A flow control valve: ordinary for a flow below the setting, controlled from it on.
fn fcv(q: f64, setting: f64) -> Coefficients
    ensures { result ≡ fcv_of q setting }
{
    let c = valve_coefficients(q, SMALL_VALUE);
    if q < setting {
        return c;
    }
    let hloss = c.offset / c.conductance + BIG_VALUE * (q - setting);
    simple(1.0 / BIG_VALUE, hloss / BIG_VALUE)
}

// The right-hand side that a regulator adds, with the excess flow where it counts.
fn right_side(target: f64, excess: f64, counts: bool) -> f64
    ensures { result ≡ right_side target excess counts }
{
    let rhs = target * BIG_VALUE;
    if counts {
        return rhs + excess;
    }
    rhs
}

// An Active PRV: it holds the head at its end.
fn prv(target: f64, excess: f64) -> Coefficients
    ensures { result ≡ prv_of target excess }
{
    Coefficients {
        conductance: 0.0,
        offset: excess,
        upstream: None,
        downstream: held(right_side(target, excess, excess < 0.0)),
    }
}

// An Active PSV: it holds the head at its start.
fn psv(target: f64, excess: f64) -> Coefficients
    ensures { result ≡ psv_of target excess }
{
    Coefficients {
        conductance: 0.0,
        offset: -excess,
        upstream: held(right_side(target, excess, excess > 0.0)),
        downstream: None,
    }
}

// A valve that is neither closed nor open, by its kind.
fn regulator(
    active: bool,
    link: Link,
    q: f64,
    excess_start: f64,
    excess_end: f64,
    elevation_start: f64,
    elevation_end: f64,
) -> Coefficients
    ensures { result ≡ regulator_of link.kind active link q excess_start excess_end elevation_start elevation_end }
{
    let kind = link.kind;
    match kind {
        LinkKind::Tcv => valve_coefficients(q, minor_loss(link.setting, link.diameter)),
        LinkKind::Pbv => simple(BIG_VALUE, link.setting * BIG_VALUE),
        LinkKind::Pcv => {
            valve_coefficients(q, pcv_minor_loss(link.setting, link.minor, link.diameter))
        }
        LinkKind::Fcv => fcv(q, link.setting),
        LinkKind::Prv => {
            if active {
                return prv(link.setting + elevation_end, excess_end);
            }
            simple(1.0 / SMALL_VALUE, q)
        }
        LinkKind::Psv => {
            if active {
                return psv(link.setting + elevation_start, excess_start);
            }
            simple(1.0 / SMALL_VALUE, q)
        }
        LinkKind::Pipe => simple(1.0 / SMALL_VALUE, q),
    }
}

pub fn valve_rule(
    link: Link,
    status: Status,
    q: f64,
    excess_start: f64,
    excess_end: f64,
    elevation_start: f64,
    elevation_end: f64,
) -> Coefficients
    ensures { result ≡ valve_of link status q excess_start excess_end elevation_start elevation_end }
{
    match status {
        Status::Closed | Status::TempClosed | Status::FixedClosed => simple(1.0 / BIG_VALUE, q),
        Status::Open | Status::FixedOpen => {
            valve_coefficients(q, minor_loss(link.minor, link.diameter))
        }
        // one call alone, so that the compiler puts it here and no link goes through memory
        _ => regulator(
            is_active(status),
            link,
            q,
            excess_start,
            excess_end,
            elevation_start,
            elevation_end,
        ),
    }
}
