// A pipe's coefficients by Hazen-Williams.
#![tactic(auto)]

ghost use Rattle.std.specs.Prelude.{◌≡◌};
ghost use Rattle.pipes.specs.Pipe.{friction_of, with_minor, with_barrier, pipe_of};

use coefficient::{Coefficients, simple};
use constants::{BIG_VALUE, CV_HEAD_EPSILON, H_EXPONENT, Q_ZERO, RQ_TOL};
use float::{abs, signum, whole_power};
use power::{PowerTable, power};
use records::Status;
use roots::root;

// A head loss and its gradient, for the flow's magnitude.
#[derive(Clone, Copy)]
pub struct Loss {
    pub hgrad: f64,
    pub hloss: f64,
}

// Friction; linear where the gradient is very small.
fn friction(q_abs: f64, r: f64, table: &PowerTable) -> Loss
    ensures { result ≡ friction_of q_abs r }
{
    let hgrad = H_EXPONENT * r * power(q_abs, table);
    if hgrad < RQ_TOL {
        return Loss {
            hgrad: RQ_TOL,
            hloss: RQ_TOL * q_abs,
        };
    }
    Loss {
        hgrad: hgrad,
        hloss: hgrad * q_abs / H_EXPONENT,
    }
}

// The contribution of minor losses.
fn with_minor(l: Loss, ml: f64, q_abs: f64) -> Loss
    ensures { result ≡ with_minor l ml q_abs }
{
    if ml > 0.0 {
        return Loss {
            hgrad: l.hgrad + 2.0 * ml * q_abs,
            hloss: l.hloss + ml * whole_power(q_abs, 2),
        };
    }
    l
}

// The check valve's barrier on top of the pipe's own loss.
fn add_cv_head_loss(q: f64, g_inv: f64, y: f64) -> Coefficients
    ensures { result ≡ with_barrier q g_inv y }
{
    let pipe_hgrad = 1.0 / g_inv;
    let pipe_hloss = y * pipe_hgrad;
    let a = BIG_VALUE * (q + Q_ZERO);
    let b = root(a * a + CV_HEAD_EPSILON);
    let hloss = pipe_hloss + (a - b) * 0.5;
    let hgrad = pipe_hgrad + BIG_VALUE * (1.0 - a / b) * 0.5;
    simple(1.0 / hgrad, hloss / hgrad)
}

// A pipe of status FixedClosed carries water: only Closed and TempClosed shut it.
pub fn pipe_rule(
    check: bool,
    ml: f64,
    r: f64,
    status: Status,
    q: f64,
    table: &PowerTable,
) -> Coefficients
    ensures { result ≡ pipe_of check ml r status q }
{
    match status {
        Status::Closed | Status::TempClosed => return simple(1.0 / BIG_VALUE, q),
        _ => {}
    }
    let q_abs = abs(q);
    let l = with_minor(friction(q_abs, r, table), ml, q_abs);
    let hloss = l.hloss * signum(q);
    let g_inv = 1.0 / l.hgrad;
    let y = hloss / l.hgrad;
    if check {
        return add_cv_head_loss(q, g_inv, y);
    }
    simple(g_inv, y)
}
