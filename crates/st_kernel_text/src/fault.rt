//! Why a text is no kernel.

ghost use Rattle.std.specs.Prelude.{◌≡◌};

use st_decimal::OutOfMemory;
use thiserror::Error;

/// The first thing in a text, in reading order, that is no kernel text.
#[derive(Clone, Copy, Debug, PartialEq, Eq, Error)]
pub enum TextFault {
    /// The line, counted from 1 over all lines of the file, and what breaks there.
    #[error("line {line}: {cause}")]
    At { line: u64, cause: TextCause },
    /// Memory was refused.
    #[error("out of memory")]
    OutOfMemory,
}

/// What breaks at a line.
#[derive(Clone, Copy, Debug, PartialEq, Eq, Error)]
pub enum TextCause {
    /// The line has more than 1,000 bytes without its end.
    #[error("a line of more than 1,000 bytes")]
    LineTooLong,
    /// An assignment begins without a name: 1 to 32 bytes from 33 to 126 without `(`, `)`, `,`, `=`
    /// and `'`, the last of them no `+`.
    #[error("no name")]
    NoName,
    /// No `=` and no `+=` follows a name on its line.
    #[error("no sign")]
    NoSign,
    /// A list is empty, or after a sign the data end or a `)` stands.
    #[error("no value")]
    NoValue,
    /// What stands where a value is due is neither a string nor a date nor a number, or a number
    /// has more than 30 digits, an exponent outside -400 to 400, or a `(` or `'` directly after
    /// it.
    #[error("no number")]
    BadNumber,
    /// A string has no end on its line, has more than 80 bytes, or something follows it directly.
    #[error("no string")]
    BadString,
    /// What stands after an `@` is no date, or the calendar has no such day, or it is out of range.
    #[error("no date")]
    BadDate,
    /// A value is of another kind than the first value of its assignment.
    #[error("numbers and strings in one assignment")]
    MixedKinds,
    /// The data end in a list.
    #[error("a list without its end")]
    Unclosed,
    /// A data line has a byte that is neither a tab nor from 32 to 126.
    #[error("a byte that data may not have")]
    BadByte,
    /// Something follows the value of an assignment on its line.
    #[error("text behind a value")]
    TrailingText,
}

impl From<OutOfMemory> for TextFault {
    ghost use Rattle.st_kernel_text.specs.declared.fault.TextFault.TheVariants.{OutOfMemory as NoMemory};

    ghost from_gives = { λ _ fault. fault ≡ NoMemory };

    fn from(_: OutOfMemory) -> Self {
        TextFault::OutOfMemory
    }
}
