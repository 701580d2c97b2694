//! The forms of time texts: calendar dates, Julian dates and plain seconds, read to a label or an
//! instant.
#![tactic(auto)]

mod date;
mod fault;
mod form;
pub mod laws;
mod number;
mod reading;
mod tail;
#[cfg(test)]
mod tests;
mod time;
mod words;

pub use fault::FormFault;
pub use form::Form;
pub use time::{TimeText, read_time};
