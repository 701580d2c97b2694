//! What a table of leap seconds is made of.

/// From its date on, TAI is `count` seconds ahead of UTC.
#[derive(Clone, Copy, Debug, PartialEq, Eq)]
pub struct LeapPair {
    /// TAI minus UTC, in seconds.
    pub count: u32,
    /// The date, in days from 2000-01-01.
    pub day: i32,
}
