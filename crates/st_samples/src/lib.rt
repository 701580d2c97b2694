//! Samples: large valid inputs that a number makes, and the summary of their answers.
//!
//! The seed is x(0) of a generator, and each `next` gives the x of one more line: as plain seconds, as a label of the
//! calendar, or as a tick of a spacecraft clock. The reader of times takes each line of the first two.
#![tactic(auto)]

mod generator;
pub mod laws;
mod line;
mod of_job;
mod summary;
#[cfg(test)]
mod tests;

pub use generator::{next, tick_of};
pub use line::{label_line, seconds_line, tick_line};
pub use of_job::job_line;
pub use summary::{MOST_LINES, Summary, put_summary};
