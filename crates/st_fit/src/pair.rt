//! What is fitted, and what a fit is made of.

/// A measured pair: an encoded tick of the clock, and the time that it had, in units of 10^-18 s past J2000 in the
/// clock's own scale.
#[derive(Clone, Copy, Debug, PartialEq, Eq)]
pub struct Pair {
    pub ticks: u64,
    pub time: i128,
}

/// A record of the clock: from its tick on the time is `time` and `rate` units more for each count of the clock's first
/// field.
#[derive(Clone, Copy, Debug, PartialEq, Eq)]
pub struct Record {
    pub ticks: u64,
    pub time: i128,
    pub rate: i128,
}

/// How pairs are to be met: ticks in one count of the clock's first field, and how far in units a line may pass from a
/// pair's time.
#[derive(Clone, Copy)]
pub struct Terms {
    pub tpm: u64,
    pub tolerance: i128,
}
