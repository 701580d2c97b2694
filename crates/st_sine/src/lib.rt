//! Enclosures of sine and cosine at any angle that is needed, and of the sine in the formula for TDB.
//!
//! The series serves small angles alone. The sine in the formula takes whole quarters of a turn off an angle; `sin_cos`
//! halves an angle and doubles back, by steps that can be followed to the last unit. `specs/Anomaly.antt` says what the
//! sine in the formula is. No call allocates, and none refuses.
#![tactic(auto)]

mod angle;
mod anomaly;
mod double;
pub mod laws;
mod orbit;
mod quarters;

pub use angle::sin_cos;
pub use anomaly::anomaly_sine;
pub use orbit::Orbit;
