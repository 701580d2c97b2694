//! Why a setup or a line is refused, and the text of each refusal.
//!
//! A [`LineFault`] is one refusal, made of the fault of a loading, of a setup, of a table or of a time; [`KernelFault`]
//! is that of a loading. [`put_refusal`] appends its text. Nothing of the session, which refuses, is here.
#![tactic(auto)]

mod answer_fault;
mod fault;
mod kernel_fault;
pub mod laws;
mod refusal;

pub use crate::answer_fault::refusal_of;
pub use crate::fault::LineFault;
pub use crate::kernel_fault::KernelFault;
pub use crate::refusal::put_refusal;
