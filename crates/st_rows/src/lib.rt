//! Worked rows, run through `st_batch::run` over the outside in memory, and sessions by their own calls.
//!
//! Each table reads as a document: the words or the lines, and what the program writes for them.
#![tactic(auto)]

#[cfg(test)]
mod batches;
#[cfg(test)]
mod conversions;
#[cfg(test)]
mod days;
#[cfg(test)]
mod range;
#[cfg(test)]
mod refusals;
#[cfg(test)]
mod samples;
#[cfg(test)]
mod sessions;
#[cfg(test)]
mod systems;
