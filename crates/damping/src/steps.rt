// The damping factor, the relative change and the test of convergence.
ghost use Rattle.std.specs.Prelude.{◌≡◌};
ghost use Rattle.damping.specs.Damping.{damped_of, relative_change, flow_limit, converged_of};

use crate::units::factor;
use constants::{BIG_VALUE, Q_ZERO};
use float::{larger, smaller};

// The damping factor and the relative change before.
#[derive(Clone, Copy)]
pub struct Damping {
    pub factor: f64,
    pub previous: f64,
}

// The next damping factor. A NaN change leaves it as it is.
pub fn damped(factor: f64, previous: f64, change: f64, limit: f64) -> f64
    ensures { result ≡ damped_of factor previous change limit }
{
    if (change > previous) & (change < limit) {
        return larger(factor * 0.5, 0.25);
    }
    if change < previous * 0.5 {
        return 1.0;
    }
    if change < previous {
        return smaller(factor * 1.2, 1.0);
    }
    factor
}

pub fn relative_change(sum_dq: f64, sum_q: f64, accuracy: f64) -> f64
    ensures { result ≡ relative_change sum_dq sum_q accuracy }
{
    if sum_q > 2.0 * accuracy {
        return sum_dq / (sum_q + Q_ZERO);
    }
    sum_dq
}

// The max flow change of a sheet; 0, of either sign, means BIG_VALUE.
fn flow_limit(change: f64) -> f64
    ensures { result ≡ flow_limit change }
{
    if change == 0.0 {
        return BIG_VALUE;
    }
    change
}

pub fn converged(
    change: f64,
    accuracy: f64,
    status_changed: bool,
    max_dq: f64,
    unit: usize,
    max_flow_change: f64,
) -> bool
    ensures { result ≡ converged_of change accuracy status_changed max_dq unit max_flow_change }
{
    let converted = max_dq * factor(unit);
    (change < accuracy) & !status_changed & (converted < flow_limit(max_flow_change))
}
