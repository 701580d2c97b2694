//! Time pictures, after NAIF's Time Required Reading: the cell of a value, and its text.
#![tactic(auto)]

mod cell;
mod cut;
mod fault;
mod front;
pub mod laws;
mod mark;
mod picture;
mod print;
mod rules;
mod shown;
#[cfg(test)]
mod tests;
mod unit;
mod value;

pub use cell::Cell;
pub use fault::{PictureFault, PrintFault};
pub use mark::{Case, Mark, Piece, ScaleMark};
pub use picture::Picture;
pub use unit::LeastUnit;
