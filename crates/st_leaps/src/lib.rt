//! Leap seconds: the table that numbers spell, and the labels of UTC in TAI, both ways.
//!
//! Inserted seconds are there as 23:59:60, and seconds may be removed, too: then 23:59:59 isn't
//! there.
#![tactic(auto)]

mod count;
mod fault;
mod label;
pub mod laws;
mod numbers;
mod pair;
mod table;

pub use fault::{LeapFault, NoSuchSecond};
pub use pair::LeapPair;
pub use table::LeapTable;
