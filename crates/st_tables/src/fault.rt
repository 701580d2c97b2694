//! Why the loaded kernels give no table.

ghost use Rattle.std.specs.Prelude.{◌≡◌};

use st_decimal::OutOfMemory;
use st_leaps::LeapFault;
use st_scales::DeltetFault;
use st_ticks::{ClockFault, FaceFault, Var};
use thiserror::Error;

/// Why the loaded kernels give no table: the first of its variables that is absent or holds texts, in their order; where all
/// are there and hold numbers, the first fault of the numbers.
#[derive(Clone, Copy, Debug, PartialEq, Eq, Error)]
pub enum TableFault {
    /// No loaded kernel has an assignment of the variable.
    #[error("no variable {0:?}")]
    NoVariable(Var),
    /// A value of the variable is a text.
    #[error("{0:?} is not of numbers")]
    WrongKind(Var),
    /// The numbers are no table of leap seconds. Never [`LeapFault::OutOfMemory`].
    #[error("{0}")]
    Leaps(LeapFault),
    /// The numbers are no constants.
    #[error("{0}")]
    Deltet(DeltetFault),
    /// The numbers describe no clock.
    #[error("{0}")]
    Clock(ClockFault),
    /// Memory was refused.
    #[error("out of memory")]
    OutOfMemory,
}

impl From<OutOfMemory> for TableFault {
    ghost use Rattle.st_tables.specs.declared.fault.TableFault.TheVariants.{OutOfMemory as NoMemory};

    ghost from_gives = { λ _ fault. fault ≡ NoMemory };

    fn from(_: OutOfMemory) -> TableFault {
        TableFault::OutOfMemory
    }
}

impl From<LeapFault> for TableFault {
    ghost use Rattle.st_tables.specs.TablesMachine.{fault_of_leaps};

    ghost from_gives = { λ carried fault. fault ≡ fault_of_leaps carried };

    fn from(fault: LeapFault) -> TableFault {
        match fault {
            LeapFault::OutOfMemory => TableFault::OutOfMemory,
            _ => TableFault::Leaps(fault),
        }
    }
}

impl From<DeltetFault> for TableFault {
    ghost use Rattle.st_tables.specs.declared.fault.TableFault.TheVariants.{Deltet as OfConstants};

    ghost from_gives = { λ carried fault. fault ≡ OfConstants carried };

    fn from(fault: DeltetFault) -> TableFault {
        TableFault::Deltet(fault)
    }
}

impl From<ClockFault> for TableFault {
    ghost use Rattle.st_tables.specs.declared.fault.TableFault.TheVariants.{Clock as OfClock};

    ghost from_gives = { λ carried fault. fault ≡ OfClock carried };

    fn from(fault: ClockFault) -> TableFault {
        TableFault::Clock(fault)
    }
}

impl From<FaceFault> for TableFault {
    ghost use Rattle.st_tables.specs.TablesMachine.{fault_of_face};

    ghost from_gives = { λ carried fault. fault ≡ fault_of_face carried };

    fn from(fault: FaceFault) -> TableFault {
        match fault {
            FaceFault::Bad(bad) => TableFault::Clock(bad),
            FaceFault::OutOfMemory => TableFault::OutOfMemory,
        }
    }
}
