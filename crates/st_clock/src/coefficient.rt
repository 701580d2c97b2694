//! A clock's records.

/// A record: from a tick on, the line by which time goes.
#[derive(Clone, Copy, Debug, PartialEq, Eq)]
pub struct Coefficient {
    /// The encoded tick at which the line begins, at most 10^18.
    pub ticks: u64,
    /// The time at that tick in the clock's scale, in units of 10^-18 s past J2000, at most 10^10 s in magnitude.
    pub time: i128,
    /// How long a count of the clock's first field is, in units of 10^-18 s, above 0 and at most 10^5 s.
    pub rate: u128,
}
