//! Hostile use, through `st_batch::run` over the outside in memory, and of kernels through their readers, too: kernels
//! cut, in pieces and malicious, limits, and an outside whose calls fail.
//!
//! Each table reads as a document: the kernel or the lines, and what the program writes for them.
#![tactic(auto)]

#[cfg(test)]
mod faults;
#[cfg(test)]
mod kernels;
#[cfg(test)]
mod limits;
#[cfg(test)]
mod outside;
#[cfg(test)]
mod pieces;
