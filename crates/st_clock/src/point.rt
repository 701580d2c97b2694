//! The time of a tick.

use thiserror::Error;

/// A time of a clock's scale: `units + part / of` units of 10^-18 s past J2000, where `part < of`.
#[derive(Clone, Copy, Debug, PartialEq, Eq)]
pub struct Point {
    pub units: i128,
    pub part: u64,
    pub of: u64,
}

/// Why a tick has no time that is answered.
#[derive(Clone, Copy, Debug, PartialEq, Eq, Error)]
pub enum ClockRange {
    /// The tick is before the first record's.
    #[error("before the first record")]
    Before,
    /// The time lies outside the range from `FIRST` to `LAST` of `st_dates`.
    #[error("a time out of range")]
    OutOfRange,
}
