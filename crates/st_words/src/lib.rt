//! The words of the program, read whole to a job or their first fault, and the setup that names a
//! job's kernels.
#![tactic(auto)]

mod choice;
mod fault;
mod job;
pub mod laws;
mod make;
mod number;
mod opt;
mod options;
mod put;
mod reading;
mod rule;
mod setup;
mod system;
#[cfg(test)]
mod tests;
mod time_type;
mod words;

pub use fault::{IdFault, SetupFault, WordFault};
pub use job::{FromKind, Job, ToKind, Work};
pub use opt::Opt;
pub use put::put_word_fault;
pub use setup::{setup_clock, setup_files};
pub use words::read_words;
