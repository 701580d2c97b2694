//! Text kernels, after NAIF's Kernel Required Reading: every file is read to its assignments, or to
//! its first fault and that fault's line.
//!
//! What a file reads to, and which fault it has, is said in `specs/`: `File` by lines, `Grammar`
//! and `Values` by spellings, `Faults` by the token that breaks. `read_kernel` answers that and
//! nothing else, or `OutOfMemory` where memory is refused. The reader takes a file line by line and
//! a data line byte by byte.
#![tactic(auto)]

mod assignment;
mod bytes;
mod fault;
mod kernel;
pub mod laws;
mod lines;
mod names;
mod number;
mod parser;
mod reader;
mod reading;
mod steps;
mod value;
mod values;

pub use assignment::{Assignment, AssignmentList, Mode};
pub use fault::{TextCause, TextFault};
pub use reader::KernelReader;
pub use reading::read_kernel;
pub use value::{Value, ValueList};
