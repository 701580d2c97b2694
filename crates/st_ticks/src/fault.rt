//! Why a face is not made, and why a text is no string of a clock.

use crate::variable::ClockFault;
use st_decimal::OutOfMemory;
use thiserror::Error;

/// Why a face is not made.
#[derive(Clone, Copy, Debug, PartialEq, Eq, Error)]
pub enum FaceFault {
    /// The first fault of the clock's variables.
    #[error("{0}")]
    Bad(ClockFault),
    /// Memory was refused.
    #[error("out of memory")]
    OutOfMemory,
}

impl From<OutOfMemory> for FaceFault {
    ghost use Rattle.std.specs.Prelude.{◌≡◌};
    ghost use Rattle.st_ticks.specs.declared.fault.FaceFault.TheVariants.{OutOfMemory as NoMemory};

    ghost from_gives = { λ _ fault. fault ≡ NoMemory };

    fn from(_: OutOfMemory) -> Self {
        FaceFault::OutOfMemory
    }
}

/// Why a text is no string of a clock, in the order in which the reasons are tested.
#[derive(Clone, Copy, Debug, PartialEq, Eq, Error)]
pub enum ClockTextFault {
    /// The text has another shape than that of a clock string.
    #[error("no clock string")]
    Form,
    /// The text has more fields than the clock.
    #[error("too many fields")]
    TooManyFields,
    /// The clock has no partition of the written number.
    #[error("no such partition")]
    NoPartition,
    /// A field is less than its offset.
    #[error("a field below its offset")]
    FieldBelowOffset,
    /// A field is greater than 2*10^18, or the count is greater than 10^18.
    #[error("too large")]
    TooLarge,
    /// The partition does not contain the count, or no partition does.
    #[error("not in the partition")]
    NotInPartition,
}
