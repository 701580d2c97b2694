//! Exact decimals: how text kernels write them and what they are worth, their count of units of
//! 10^-18, and their text with a fixed count of decimals; and the lists that the crates exchange.
#![tactic(auto)]

mod fixed;
pub mod laws;
mod list;
mod memory;
mod number;
mod pieces;
mod place;
mod read;
mod scaling;
mod sign;
mod units;
mod value;
mod zeros;

pub use fixed::put_fixed;
pub use list::{KText, Line, List, NameList};
pub use memory::OutOfMemory;
pub use number::{Dec, DecFault};
pub use read::read_dec;
pub use sign::signed;
