//! The scales of time TAI, TT and TDB, and the way from each to each.
//!
//! `specs/Route.antt` says what the value of a time is in another scale; `convert` encloses it. The
//! constants are those of a leapseconds kernel. No call allocates.
#![tactic(auto)]

mod constants;
mod deltet;
mod fault;
pub mod laws;
mod route;
mod scale;

pub use deltet::Deltet;
pub use fault::{DeltetFault, DeltetVar};
pub use route::convert;
pub use scale::Scale;
