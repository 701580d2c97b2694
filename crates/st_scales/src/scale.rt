//! The scales of time.

/// A scale of time, after NAIF's Time Required Reading. Its values are seconds past J2000.
#[derive(Clone, Copy, Debug, PartialEq, Eq)]
pub enum Scale {
    /// International atomic time.
    Tai,
    /// Terrestrial time, which is ahead of TAI by a constant. The Toolkit calls it TDT, too.
    Tt,
    /// Barycentric dynamical time, which the Toolkit calls ephemeris time.
    Tdb,
}
