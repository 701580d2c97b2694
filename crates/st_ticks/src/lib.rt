//! The face of a type 1 spacecraft clock: its fields, its partitions, and the strings of its ticks.
#![tactic(auto)]

mod clock_text;
mod count;
mod cut;
mod face;
mod fault;
mod field;
pub mod laws;
mod make;
mod numbers;
mod place;
mod spelling;
mod values;
mod variable;
mod whole;

pub use face::Face;
pub use fault::{ClockTextFault, FaceFault};
pub use field::{Field, Partition};
pub use variable::{ClockFault, ClockVar, ClockWhy, Var};

#[cfg(test)]
mod tests;
