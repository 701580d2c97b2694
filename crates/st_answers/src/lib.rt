//! The answer of a time line: what its text stands for, by the tables that the loaded kernels give, printed as the job
//! asks, there and, where that is asked for, back.
#![tactic(auto)]

mod answer;
mod asked;
mod fault;
pub mod laws;
mod source;
mod target;

pub use answer::answer_time;
pub use fault::AnswerFault;
