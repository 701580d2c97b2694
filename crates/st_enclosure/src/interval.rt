//! The ends of an interval as they come from outside, in any order.

/// Two ends in units of 10^-18, of which the first may be above the second. `specs/Interval.antt` says what is computed with
/// them.
#[derive(Clone, Copy, Debug, PartialEq, Eq)]
pub struct Interval {
    pub lo: i128,
    pub hi: i128,
}
