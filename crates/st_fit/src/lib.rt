//! The fewest lines that pass within a tolerance of given pairs of ticks and times.
//!
//! A spacecraft clock's correlation is a list of records, each a tick, a time, and a rate from there on (NAIF's SCLK
//! Required Reading, type 1). `fit` cuts pairs that were measured into runs of neighbours, as few as there can be, so
//! that a record at the first pair of each run passes within the tolerance of all its pairs. Numbers are exact: ticks
//! are whole, times and rates count units of 10^-18 s. The rules are this project's own.
#![tactic(auto)]

mod fitting;
pub mod laws;
mod line;
mod pair;
mod rates;
mod starts;

pub use fitting::fit;
pub use pair::{Pair, Record};
