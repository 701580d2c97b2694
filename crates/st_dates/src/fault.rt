//! Why a text is no date.

use thiserror::Error;

/// Why a text is no date, in the order in which the reasons are tested.
#[derive(Clone, Copy, Debug, PartialEq, Eq, Error)]
pub enum DateFault {
    /// The text has none of the forms of a date.
    #[error("no date")]
    Form,
    /// The calendar has no such day.
    #[error("no such day")]
    NoSuchDay,
    /// The instant lies outside the range of times.
    #[error("out of range")]
    OutOfRange,
}
