//! Why numbers are no table, and why a label has no time.

ghost use Rattle.std.specs.Prelude.{◌≡◌};

use st_decimal::OutOfMemory;
use thiserror::Error;

/// Why numbers are no table of leap seconds, in the order in which the rules are tested: first the
/// three for all numbers, then the four others for each pair in turn. A fault of a pair carries the
/// pair's number, from 1.
#[derive(Clone, Copy, Debug, PartialEq, Eq, Error)]
pub enum LeapFault {
    /// There are no numbers.
    #[error("there are no leap seconds")]
    Empty,
    /// There is an odd number of numbers, so that a count has no date.
    #[error("a count has no date")]
    Odd,
    /// There are more than 1,000 pairs.
    #[error("there are more than 1,000 leap seconds")]
    TooMany,
    /// The pair's count is not whole, or lies outside 0 to 1,000.
    #[error("pair {0}: no count from 0 to 1,000")]
    NotWhole(u32),
    /// The pair's date is no midnight in the range of times.
    #[error("pair {0}: no midnight in the range")]
    NotMidnight(u32),
    /// The pair's date is not later than that of the pair before.
    #[error("pair {0}: not later than the one before")]
    NotRising(u32),
    /// The pair's count is neither one more nor one less than that of the pair before.
    #[error("pair {0}: a count not one more or one less")]
    BadStep(u32),
    /// Memory was refused.
    #[error("out of memory")]
    OutOfMemory,
}

impl From<OutOfMemory> for LeapFault {
    ghost use Rattle.st_leaps.specs.declared.fault.LeapFault.TheVariants.{OutOfMemory as NoMemory};

    ghost from_gives = { λ _ fault. fault ≡ NoMemory };

    fn from(_error: OutOfMemory) -> LeapFault {
        LeapFault::OutOfMemory
    }
}

/// The day of a label doesn't have the label's second.
#[derive(Clone, Copy, Debug, PartialEq, Eq, Error)]
#[error("the day has no such second")]
pub struct NoSuchSecond;
