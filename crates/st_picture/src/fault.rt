//! Why a text is no time picture, and why a time isn't printed.

ghost use Rattle.std.specs.Prelude.{◌≡◌};

use crate::cell::Cell;
use st_decimal::OutOfMemory;
use thiserror::Error;

/// Why a text is no time picture, in the order in which the rules are tested.
#[derive(Clone, Copy, Debug, PartialEq, Eq, Error)]
pub enum PictureFault {
    /// The text has more than 255 bytes.
    #[error("more than 255 bytes")]
    TooLong,
    /// The byte at this place, from 0, is none from the space to `~`; it is the first such byte.
    #[error("byte {0} is none from the space to `~`")]
    BadByte(usize),
    /// A mark of other pictures stands where no mark of these does: `YR`, `ERA`, `era`, `SP1950` or one that begins
    /// with `::`.
    #[error("a mark of other pictures")]
    LeftOutMark,
    /// A `#` belongs to no decimals.
    #[error("a `#` of no decimals")]
    StrayHash,
    /// A mark has more than nine decimals.
    #[error("more than nine decimals")]
    TooManyPlaces,
    /// No mark prints anything.
    #[error("nothing is printed")]
    Empty,
    /// `SP2000` or `JULIAND` stands beside another printing mark, or two `SC` have different numbers of decimals.
    #[error("marks that cannot stand together")]
    MixedForms,
    /// `SP2000` or `JULIAND` stands in a picture of UTC.
    #[error("a count of seconds or a Julian date in UTC")]
    CountInUtc,
    /// A mark names another system than the one that is printed.
    #[error("a mark of another system")]
    WrongSystem,
    /// A month or a year is to be rounded.
    #[error("a month or a year cannot be rounded")]
    NoUnit,
    /// Memory was refused.
    #[error("out of memory")]
    OutOfMemory,
}

impl From<OutOfMemory> for PictureFault {
    ghost use Rattle.st_picture.specs.declared.fault.PictureFault.TheVariants.{OutOfMemory as NoMemory};

    ghost from_gives = { λ _ fault. fault ≡ NoMemory };

    fn from(_error: OutOfMemory) -> PictureFault {
        PictureFault::OutOfMemory
    }
}

/// Why a time isn't printed.
#[derive(Clone, Copy, Debug, PartialEq, Eq, Error)]
pub enum PrintFault {
    /// The two ends of the time lie in these different cells.
    #[error("the ends of the time lie in different cells")]
    Undecided { lo: Cell, hi: Cell },
    /// Memory was refused.
    #[error("out of memory")]
    OutOfMemory,
}

impl From<OutOfMemory> for PrintFault {
    ghost use Rattle.st_picture.specs.declared.fault.PrintFault.TheVariants.{OutOfMemory as NoMemory};

    ghost from_gives = { λ _ fault. fault ≡ NoMemory };

    fn from(_error: OutOfMemory) -> PrintFault {
        PrintFault::OutOfMemory
    }
}
