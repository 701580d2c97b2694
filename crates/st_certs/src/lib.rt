//! Certificates: why a text was printed, in whole numbers that anyone can check.
//!
//! A certificate is an object of JSON that names constants, two scales among TAI, TT and TDB, a source, a picture and a text,
//! and that shows by rows of doubled sines and cosines where the value lies. `check_certificate` answers whether one is
//! sound, and by its contract the text is then the right one; `make_certificate` makes one.
#![tactic(auto)]

mod certificate;
pub mod laws;
mod rows;
mod why;

pub use certificate::{Certificate, Constants, Row, SineChain, SineProof};
pub use why::{Chain, Why};
