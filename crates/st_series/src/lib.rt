//! Sine and cosine of fractions of whole numbers, by the partial sums of their series; the laws on which enclosures of
//! them stand; and enclosures of sine and cosine of small angles. There is no real number: `specs/Series.antt` has the
//! definitions.
#![tactic(auto)]

pub mod laws;
mod small;

pub use small::{cos_within_one, sin_cos_small, sin_within_one};
