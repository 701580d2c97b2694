//! Why the words, or the setup that they name, are refused.

ghost use Rattle.std.specs.Prelude.{◌≡◌};

use crate::opt::Opt;
use st_decimal::OutOfMemory;
use st_picture::PictureFault;
use st_ticks::Var;
use thiserror::Error;

/// Why the words are refused. The first five name the place of a word, counted from 1, and the
/// leftmost of them is answered; the others follow in this order, but a conflict of `-back` comes last.
#[derive(Clone, Copy, Debug, PartialEq, Eq, Error)]
pub enum WordFault {
    /// The word in an option's place names no option.
    #[error("word {0} is no option")]
    Unknown(usize),
    /// The option stood before.
    #[error("the option at word {0} stood before")]
    Twice(usize),
    /// The value of the option at this place is missing.
    #[error("the option at word {0} lacks its value")]
    NoValue(usize),
    /// The value is no system or type, or a file's name of 0 or more than 255 bytes.
    #[error("word {0} is no value of its option")]
    BadValue(usize),
    /// The value is no number of its form and range.
    #[error("word {0} is no number of its option")]
    BadNumber(usize),
    /// The option has to be there.
    #[error("an option is missing: {0:?}")]
    Missing(Opt),
    /// The type that the option names is none of its system.
    #[error("a type that its system has not: {0:?}")]
    BadPair(Opt),
    /// The two options cannot stand together, or not with the values that they have.
    #[error("options that exclude each other: {0:?} and {1:?}")]
    Conflict(Opt, Opt),
    /// The picture is refused for this reason.
    #[error("a bad picture: {0:?}")]
    BadPicture(PictureFault),
    /// Memory was refused.
    #[error("out of memory")]
    OutOfMemory,
}

impl From<OutOfMemory> for WordFault {
    ghost use Rattle.st_words.specs.declared.fault.WordFault.TheVariants.{OutOfMemory as NoMemory};

    ghost from_gives = { λ _ fault. fault ≡ NoMemory };

    fn from(_: OutOfMemory) -> Self {
        WordFault::OutOfMemory
    }
}

impl From<PictureFault> for WordFault {
    ghost use Rattle.st_words.specs.RulesMachine.{word_fault};

    ghost from_gives = { λ refusal fault. fault ≡ word_fault refusal };

    fn from(refusal: PictureFault) -> Self {
        match refusal {
            PictureFault::OutOfMemory => WordFault::OutOfMemory,
            _ => WordFault::BadPicture(refusal),
        }
    }
}

/// Why a setup names no files.
#[derive(Clone, Copy, Debug, PartialEq, Eq, Error)]
pub enum SetupFault {
    /// The variable has a value that is no text.
    #[error("a value of {0:?} is no text")]
    WrongKind(Var),
    /// Memory was refused.
    #[error("out of memory")]
    OutOfMemory,
}

impl From<OutOfMemory> for SetupFault {
    ghost use Rattle.st_words.specs.declared.fault.SetupFault.TheVariants.{OutOfMemory as NoMemory};

    ghost from_gives = { λ _ fault. fault ≡ NoMemory };

    fn from(_: OutOfMemory) -> Self {
        SetupFault::OutOfMemory
    }
}

/// Why a setup names no clock, in the order in which the reasons are tested.
#[derive(Clone, Copy, Debug, PartialEq, Eq, Error)]
pub enum IdFault {
    /// `SPACECRAFT_ID` is not there.
    #[error("no SPACECRAFT_ID")]
    Missing,
    /// `SPACECRAFT_ID` has a value that is no number.
    #[error("a value of SPACECRAFT_ID is no number")]
    WrongKind,
    /// `SPACECRAFT_ID` is not one whole number from -999,999,999 to -1.
    #[error("SPACECRAFT_ID is no id of a spacecraft")]
    BadId,
}
