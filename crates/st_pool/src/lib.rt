//! The kernel pool: the loaded kernels in their order, and the values that they give each variable.
#![tactic(auto)]

mod counts;
mod fault;
mod index;
mod kernel;
mod kind;
mod kinds;
mod last;
mod place;
mod pool;
#[cfg(test)]
mod tests;
mod values;

pub use fault::{LoadFault, NotLoaded};
pub use kernel::Kernel;
pub use kind::Kind;
pub use place::Place;
pub use pool::Pool;
pub use values::Values;
