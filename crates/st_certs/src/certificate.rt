//! What a certificate has.

use st_decimal::{Line, List};
use st_enclosure::Interval;
use st_scales::Scale;

/// The constants of a leapseconds kernel, in units of 10^-18: those of `Deltet`, in any range.
#[derive(Clone, Copy, Debug, PartialEq, Eq)]
pub struct Constants {
    pub delta_ta: i128,
    pub k: i128,
    pub eb: i128,
    pub m0: i128,
    pub m1: i128,
}

/// Where the sine and the cosine of an angle lie, in units of 10^-18.
#[derive(Clone, Copy, Debug, PartialEq, Eq)]
pub struct Row {
    pub sine: Interval,
    pub cosine: Interval,
}

/// An angle of `x` units, and rows for it and for what doubling it again and again gives.
#[derive(Debug, Drop)]
pub struct SineChain {
    pub x: i128,
    pub rows: List<Row>,
}

/// What shows TDB of the TT value `t`: the sine of the mean anomaly by `m`, that of the eccentric anomaly by `e`.
#[derive(Debug, Drop)]
pub struct SineProof {
    pub t: i128,
    pub m: SineChain,
    pub e: SineChain,
}

/// A certificate. `source` is in units of 10^-18 s past J2000 in the scale `from`; `text` is what `picture` prints of its
/// value in the scale `to`.
#[derive(Debug, Drop)]
pub struct Certificate {
    pub constants: Constants,
    pub from: Scale,
    pub to: Scale,
    pub source: i128,
    pub picture: Line,
    pub text: Line,
    pub proofs: List<SineProof>,
}
