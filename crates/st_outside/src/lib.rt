//! The outside of the program: where its bytes come from and where they go.
//!
//! Three traits stand for it: a [`Source`] of bytes, a [`Sink`] that takes bytes, and the [`Files`]
//! that are opened by their names. Their contracts say which bytes went over, where the
//! implementation tells its bytes, and they tie each fault to a count that rose in that call.
#![tactic(auto)]

mod bytes;
mod calls;
mod faults;
mod file_map;
mod file_system;
pub mod laws;
mod mem_files;
mod mem_sink;
mod mem_source;
mod safe_files;
mod safe_sink;
mod safe_source;
mod standard;
mod tally;
#[cfg(test)]
mod tests;
mod traits;

pub use crate::faults::{Failed, OpenFault, OutOfMemory, SinkFault};
pub use crate::file_map::FileMap;
pub use crate::file_system::FileSystem;
pub use crate::mem_files::MemFiles;
pub use crate::mem_sink::MemSink;
pub use crate::mem_source::MemSource;
pub use crate::safe_files::SafeFiles;
pub use crate::safe_sink::SafeSink;
pub use crate::safe_source::SafeSource;
pub use crate::standard::{StdIn, StdOut};
pub use crate::traits::{Files, Sink, Source};
