//! The tables that the loaded kernels give: the table of leap seconds, the constants of the scales, and a spacecraft clock.
//!
//! Each is made of the numbers of its own variables, and kept with them: it is made anew only where the loaded kernels give
//! these variables other numbers.
#![tactic(auto)]

mod clock;
mod constants;
mod fault;
mod kernels;
mod kinds;
pub mod laws;
mod leaps;
mod name;
mod numbers;
mod tables;
#[cfg(test)]
mod tests;

pub use fault::TableFault;
pub use kernels::Kernels;
pub use kinds::first_refused;
pub use name::{Name, name_of, put_name};
pub use numbers::{Numbers, read_numbers};
pub use tables::Tables;
