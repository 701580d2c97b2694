//! What the outside can answer in place of bytes.

ghost use Rattle.std.specs.Prelude.{◌≡◌};
ghost use Rattle.st_outside.specs.declared.faults.SinkFault.TheVariants.{OutOfMemory};

use std::alloc::AllocError;
use std::error::Error;
use std::fmt;

/// Want of memory, the one answer that no contract ties to a cause.
pub type OutOfMemory = AllocError;

/// A read failed; the count of faults rose in that call.
#[derive(Clone, Copy, Debug, PartialEq, Eq)]
pub struct Failed;

impl fmt::Display for Failed {
    fn fmt<W: fmt::Write>(&self, f: &mut fmt::Formatter<W>) -> fmt::Result {
        write!(f, "a read failed")
    }
}

impl Error for Failed {}

/// A write took nothing, where the sink tells what it took.
#[derive(Clone, Copy, Debug, PartialEq, Eq)]
pub enum SinkFault {
    /// The sink refused the bytes; its count of faults rose in that call.
    Failed,
    /// There was no memory to keep the bytes.
    OutOfMemory,
}

impl fmt::Display for SinkFault {
    fn fmt<W: fmt::Write>(&self, f: &mut fmt::Formatter<W>) -> fmt::Result {
        match self {
            SinkFault::Failed => write!(f, "a write failed"),
            SinkFault::OutOfMemory => write!(f, "out of memory"),
        }
    }
}

impl Error for SinkFault {}

impl From<AllocError> for SinkFault {
    ghost from_gives = { λ _ e. e ≡ OutOfMemory };

    fn from(_error: AllocError) -> SinkFault {
        SinkFault::OutOfMemory
    }
}

/// A file wasn't opened, and no file is open.
#[derive(Clone, Copy, Debug, PartialEq, Eq)]
pub enum OpenFault {
    /// There is no file of that name; the count of misses rose in that call.
    Missing,
    /// The file can't be opened; the count of faults rose in that call.
    Failed,
    /// There was no memory to open the file.
    OutOfMemory,
}

impl fmt::Display for OpenFault {
    fn fmt<W: fmt::Write>(&self, f: &mut fmt::Formatter<W>) -> fmt::Result {
        match self {
            OpenFault::Missing => write!(f, "there is no file of this name"),
            OpenFault::Failed => write!(f, "the file can't be opened"),
            OpenFault::OutOfMemory => write!(f, "out of memory"),
        }
    }
}

impl Error for OpenFault {}
