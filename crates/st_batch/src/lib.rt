//! The session of `chronos`: from its words to its output.
//!
//! [`run`] does all that the program does, and its contract is the project's theorem. Below it stand the parts
//! that it is made of: the [`Session`] with the setup and the kernels that are loaded, its commands and its times, the
//! lines of the input, and the answers.
#![tactic(auto)]

mod answer;
mod answering;
mod command;
mod input;
pub mod laws;
mod load;
mod sample;
mod session;
mod setup;
mod status;
mod time;
mod top;
mod write;

pub use crate::answer::Answer;
pub use crate::session::Session;
pub use crate::status::Status;
pub use crate::top::run;
pub use st_refusals::{LineFault, put_refusal};
