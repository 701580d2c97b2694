//! The correlation of a spacecraft clock with time: which time a tick has, and which tick a time.
//!
//! A clock of type 1 has records, each a tick, a time in the clock's own scale, and a rate from there on. Times are exact:
//! a tick's time is a count of units and a part of a unit, and a time's tick is the nearest one. No call rounds on the way.
#![tactic(auto)]

mod clock;
mod coefficient;
pub mod laws;
mod line;
mod nearest;
mod number;
mod places;
mod point;
mod records;
mod system;
#[cfg(test)]
mod tests;
mod ticks;

pub use clock::Clock;
pub use number::is_whole;
pub use point::{ClockRange, Point};
pub use system::check_system;
pub use ticks::{Ticks, TicksUndecided};
