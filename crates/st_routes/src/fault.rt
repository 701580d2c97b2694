//! Why a time isn't answered.

use st_clock::ClockRange;
use st_decimal::OutOfMemory;
use st_forms::FormFault;
use st_ticks::ClockTextFault;
use thiserror::Error;

/// Why a time isn't answered, in the order in which the reasons are tested.
#[derive(Clone, Copy, Debug, PartialEq, Eq, Error)]
pub enum TimeFault {
    /// The text has none of the forms of times that are taken.
    #[error("no time")]
    BadTime,
    /// The word after the time names another system than the source.
    #[error("a time of another system")]
    WrongSystem,
    /// The calendar has no such day.
    #[error("no such day")]
    NoSuchDay,
    /// The time lies outside the range of times, as a text or as the time of a tick.
    #[error("out of range")]
    OutOfRange,
    /// The seconds are 60 in another minute than 23:59, or the day hasn't that second.
    #[error("no such second")]
    NoSuchSecond,
    /// The text is none of the clock's.
    #[error("{0}")]
    BadClockText(ClockTextFault),
    /// The tick of a source is before the clock's first record, or the time of a target is.
    #[error("before the clock's first record")]
    BeforeClock,
    /// The time is after the clock's last tick.
    #[error("after the clock's last tick")]
    AfterClock,
    /// Two bounds of the exact value, at most 10^-12 s apart, are printed differently.
    #[error("undecided")]
    Undecided,
    /// Memory was refused.
    #[error("out of memory")]
    OutOfMemory,
}

impl From<OutOfMemory> for TimeFault {
    ghost use Rattle.std.specs.Prelude.{◌≡◌};
    ghost use Rattle.st_routes.specs.declared.fault.TimeFault.TheVariants.{OutOfMemory as NoMemory};

    ghost from_gives = { λ _ fault. fault ≡ NoMemory };

    fn from(_error: OutOfMemory) -> TimeFault {
        TimeFault::OutOfMemory
    }
}

impl From<FormFault> for TimeFault {
    ghost use Rattle.std.specs.Prelude.{◌≡◌};
    ghost use Rattle.st_routes.specs.FaultSteps.{of_form};

    ghost from_gives = { λ form fault. fault ≡ of_form form };

    fn from(fault: FormFault) -> TimeFault {
        match fault {
            FormFault::BadTime => TimeFault::BadTime,
            FormFault::WrongSystem => TimeFault::WrongSystem,
            FormFault::NoSuchDay => TimeFault::NoSuchDay,
            FormFault::OutOfRange => TimeFault::OutOfRange,
        }
    }
}

impl From<ClockTextFault> for TimeFault {
    ghost use Rattle.std.specs.Prelude.{◌≡◌};
    ghost use Rattle.st_routes.specs.declared.fault.TimeFault.TheVariants.{BadClockText};

    ghost from_gives = { λ why fault. fault ≡ BadClockText why };

    fn from(fault: ClockTextFault) -> TimeFault {
        TimeFault::BadClockText(fault)
    }
}

impl From<ClockRange> for TimeFault {
    ghost use Rattle.std.specs.Prelude.{◌≡◌};
    ghost use Rattle.st_routes.specs.FaultSteps.{of_range};

    ghost from_gives = { λ range fault. fault ≡ of_range range };

    fn from(fault: ClockRange) -> TimeFault {
        match fault {
            ClockRange::Before => TimeFault::BeforeClock,
            ClockRange::OutOfRange => TimeFault::OutOfRange,
        }
    }
}
