//! Why a setup or a line is refused.

use crate::kernel_fault::KernelFault;
use st_kernel_text::TextCause;
use st_leaps::LeapFault;
use st_scales::DeltetFault;
use st_ticks::{ClockTextFault, ClockVar, ClockWhy, Var};
use st_words::{IdFault, SetupFault};
use thiserror::Error;

/// Why a setup or a line is refused.
#[derive(Clone, Copy, Debug, PartialEq, Eq, Error)]
pub enum LineFault {
    /// The line begins with `$` and is no command.
    #[error("no command")]
    BadCommand,
    /// The line has more than 1,000 bytes.
    #[error("a line of more than 1,000 bytes")]
    LineTooLong,
    /// There is no file of that name.
    #[error("no such file")]
    NoFile,
    /// The file could not be opened, or its read failed.
    #[error("the file could not be read")]
    FileFault,
    /// The file has more than 16,777,216 bytes.
    #[error("a file of more than 16,777,216 bytes")]
    FileTooLong,
    /// The file is no text kernel: the line, from 1, and what breaks there.
    #[error("no text kernel, by its line {line}")]
    KernelText {
        line: u64,
        cause: TextCause,
    },
    /// 1,000 kernels are loaded.
    #[error("1,000 kernels are loaded")]
    TooManyKernels,
    /// The values of the loaded kernels and of this one are more than 2,000,000.
    #[error("more than 2,000,000 values")]
    TooManyValues,
    /// No kernel of that name is loaded.
    #[error("no kernel of that name is loaded")]
    NotLoaded,
    /// The loaded kernels give the variable no value.
    #[error("a variable is missing")]
    NoVariable(Var),
    /// The values of the variable are of another kind than they must be.
    #[error("a variable of the wrong kind")]
    WrongKind(Var),
    /// `SPACECRAFT_ID` is not one whole number from -999,999,999 to -1.
    #[error("no id of a spacecraft")]
    BadId,
    /// The values of `DELTET/DELTA_AT` are no table of leap seconds.
    #[error("no table of leap seconds: {0}")]
    BadLeaps(LeapFault),
    /// The values of the `DELTET` variables are no constants of the scales.
    #[error("no constants of the scales: {0}")]
    BadDeltet(DeltetFault),
    /// The values of the variables of the clock with the id `-n` are no clock.
    #[error("no clock: {var:?}, {why:?}")]
    BadClock {
        var: ClockVar,
        why: ClockWhy,
        n: u32,
    },
    /// The text has none of the forms of a time.
    #[error("no time")]
    BadTime,
    /// The text names another system than the source.
    #[error("a time of another system")]
    WrongSystem,
    /// The calendar has no such day.
    #[error("no such day")]
    NoSuchDay,
    /// The time lies outside the range of times.
    #[error("out of range")]
    OutOfRange,
    /// The day has no such second.
    #[error("no such second")]
    NoSuchSecond,
    /// The text is no string of the clock, or no tick of it.
    #[error("no clock string: {0}")]
    BadClockText(ClockTextFault),
    /// The time or the tick is before the clock's first record.
    #[error("before the clock")]
    BeforeClock,
    /// The tick nearest to the time is after the clock's last partition.
    #[error("after the clock")]
    AfterClock,
    /// Two bounds of the exact value, at most 10^-12 s apart, have different cells or ticks.
    #[error("undecided")]
    Undecided,
    /// Memory was refused. No line is refused so: a run then ends as one that wanted memory.
    #[error("out of memory")]
    OutOfMemory,
}

impl From<KernelFault> for LineFault {
    ghost use Rattle.std.specs.Prelude.{◌≡◌};
    ghost use Rattle.st_refusals.specs.Faults.{line_fault};

    ghost from_gives = { λ fault e. e ≡ line_fault fault };

    fn from(fault: KernelFault) -> LineFault {
        match fault {
            KernelFault::NoFile => LineFault::NoFile,
            KernelFault::FileFault => LineFault::FileFault,
            KernelFault::FileTooLong => LineFault::FileTooLong,
            KernelFault::KernelText { line, cause } => LineFault::KernelText { line, cause },
            KernelFault::TooManyKernels => LineFault::TooManyKernels,
            KernelFault::TooManyValues => LineFault::TooManyValues,
            KernelFault::OutOfMemory => LineFault::OutOfMemory,
        }
    }
}

impl From<SetupFault> for LineFault {
    ghost use Rattle.std.specs.Prelude.{◌≡◌};
    ghost use Rattle.st_refusals.specs.Faults.{files_fault};

    ghost from_gives = { λ fault e. e ≡ files_fault fault };

    fn from(fault: SetupFault) -> LineFault {
        match fault {
            SetupFault::WrongKind(var) => LineFault::WrongKind(var),
            SetupFault::OutOfMemory => LineFault::OutOfMemory,
        }
    }
}

impl From<IdFault> for LineFault {
    ghost use Rattle.std.specs.Prelude.{◌≡◌};
    ghost use Rattle.st_refusals.specs.Faults.{id_fault};

    ghost from_gives = { λ fault e. e ≡ id_fault fault };

    fn from(fault: IdFault) -> LineFault {
        match fault {
            IdFault::Missing => LineFault::NoVariable(Var::SpacecraftId),
            IdFault::WrongKind => LineFault::WrongKind(Var::SpacecraftId),
            IdFault::BadId => LineFault::BadId,
        }
    }
}
