//! Why a text is no time.

use thiserror::Error;

/// Why a text is no time of a source, in the order in which the reasons are tested.
#[derive(Clone, Copy, Debug, PartialEq, Eq, Error)]
pub enum FormFault {
    /// The text has none of the forms that are taken. Nor has one with an hour above 23, a minute above
    /// 59 or a second above 60.
    #[error("no time")]
    BadTime,
    /// The word after the time names another system than the source.
    #[error("a time of another system")]
    WrongSystem,
    /// The calendar has no such month, day or day of the year.
    #[error("no such day")]
    NoSuchDay,
    /// The time lies outside the range of times.
    #[error("out of range")]
    OutOfRange,
}
