// constants.rs: tolerances and factors per cubic foot per second. H_EXPONENT stands in pipe.rs
// there, and 0.02517 has no name.
#![tactic(auto)]

pub const Q_ZERO: f64 = 1e-6;

pub const SMALL_VALUE: f64 = 1e-6;

pub const CV_HEAD_EPSILON: f64 = 1e-6;

pub const BIG_VALUE: f64 = 1e8;

pub const RQ_TOL: f64 = 1e-7;

pub const PDA_MIN_DIFF: f64 = 0.1;

pub const Q_TOL: f64 = 0.0001;

pub const H_TOL: f64 = 0.0005;

pub const H_EXPONENT: f64 = 1.852;

pub const LOSS_FACTOR: f64 = 0.02517;

pub const GPMperCFS: f64 = 448.831;

pub const MGDperCFS: f64 = 0.64632;

pub const IMGDperCFS: f64 = 0.5382;

pub const AFDperCFS: f64 = 1.9837;

pub const LPSperCFS: f64 = 28.317;

pub const LPMperCFS: f64 = 1699.0;

pub const CMSperCFS: f64 = 0.028317;

pub const CMHperCFS: f64 = 101.94;

pub const CMDperCFS: f64 = 2446.6;

pub const MLDperCFS: f64 = 2.4466;
