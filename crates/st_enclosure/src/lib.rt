//! Enclosures: an interval of whole units of 10^-18 in place of a number that no whole number is.
//!
//! Each call contains the plain result of all that its arguments contain. Where a result is no whole number of units its
//! ends are moved outwards, each by less than one unit. No call allocates, and none refuses.
#![tactic(auto)]

mod enclosure;
mod interval;
pub mod laws;
mod rounding;

pub use enclosure::Enc;
pub use interval::Interval;
pub use rounding::UNIT;
