// The flow units, codes in the order of the Rust's enum FlowUnits.
ghost use Rattle.std.specs.Prelude.{◌≡◌};
ghost use Rattle.damping.specs.Units.{factor_of};

use constants::{
    AFDperCFS, CMDperCFS, CMHperCFS, CMSperCFS, GPMperCFS, IMGDperCFS, LPMperCFS, LPSperCFS,
    MGDperCFS, MLDperCFS,
};

// CFS, GPM, MGD, IMGD, AFD, LPS, LPM, MLD, CMS, CMH, CMD per cubic foot per second.
const FACTORS: [f64; 11] = [
    1.0, GPMperCFS, MGDperCFS, IMGDperCFS, AFDperCFS, LPSperCFS, LPMperCFS, MLDperCFS, CMSperCFS,
    CMHperCFS, CMDperCFS,
];

// The factor of a unit code; NaN past the last code, which no sheet has.
pub fn factor(unit: usize) -> f64
    ensures { result ≡ factor_of unit }
{
    if unit < 11 {
        return FACTORS[unit];
    }
    0.0 / 0.0
}
