//! The least unit that a picture prints.

/// The finest unit of a picture's marks. Seconds, counts of seconds and Julian dates carry their
/// number of decimals.
#[derive(Clone, Copy, Debug, PartialEq, Eq)]
pub enum LeastUnit {
    Second(u32),
    Minute,
    Hour,
    Day,
    Month,
    Year,
    /// `SP2000`
    Count(u32),
    /// `JULIAND`
    Julian(u32),
}
