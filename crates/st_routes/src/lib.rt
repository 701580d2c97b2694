//! The way of one time from its text to its printed answer, given the tables: read to an instant or a tick of its source, led
//! to the scale of its target, and printed there by a picture or as a tick.
//!
//! What is printed is always what two bounds of the exact value have in common. Where a sine stands on the way and the two
//! bounds that are found differ, the answer is that it is undecided; they are at most 10^-12 s apart.
#![tactic(auto)]

mod fault;
mod instant;
pub mod laws;
mod printing;
mod route;
#[cfg(test)]
mod tests;
mod ticks;

pub use fault::TimeFault;
pub use instant::read_instant;
pub use printing::{print_tick, print_time};
pub use route::Route;
pub use ticks::{TickForm, read_tick, spell_tick, tick_time};
