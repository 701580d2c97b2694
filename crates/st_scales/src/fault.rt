//! Why numbers are no constants.

use thiserror::Error;

/// The variables of the constants, and the two numbers of the last one.
#[derive(Clone, Copy, Debug, PartialEq, Eq)]
pub enum DeltetVar {
    /// `DELTET/DELTA_T_A`.
    DeltaTa,
    /// `DELTET/K`.
    K,
    /// `DELTET/EB`.
    Eb,
    /// `DELTET/M`, which has two numbers.
    M,
    /// The first number of `DELTET/M`.
    M0,
    /// The second number of `DELTET/M`.
    M1,
}

/// Why numbers are no constants. The variables are gone through in the order of `DELTET/DELTA_T_A`,
/// `DELTET/K`, `DELTET/EB` and `DELTET/M`, and for each the reasons in the order that stands here.
#[derive(Clone, Copy, Debug, PartialEq, Eq, Error)]
pub enum DeltetFault {
    /// The variable has not the one number, or the two of `DELTET/M`, that it has to have.
    #[error("another count of numbers")]
    Count(DeltetVar),
    /// The number is no whole number of units of 10^-18.
    #[error("no whole number of units")]
    NotUnits(DeltetVar),
    /// The number lies outside its range.
    #[error("out of range")]
    Range(DeltetVar),
}
