//! The systems of time.

/// The systems in which a time can be told: UTC, TAI, TT (also called TDT), TDB (also called ET),
/// and a spacecraft's own clock.
#[derive(Clone, Copy, Debug, PartialEq, Eq, Hash)]
pub enum System {
    Utc,
    Tai,
    Tt,
    Tdb,
    Sclk,
}
