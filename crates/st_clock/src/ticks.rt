//! The tick of a time.

ghost use Rattle.std.specs.Prelude.{◌≡◌, ◌↔◌, IsTrue};

use thiserror::Error;

/// The tick of a time, with the times that have none.
#[derive(Clone, Copy, Debug, PartialEq, Eq)]
pub enum Ticks {
    /// The time is before the first record's.
    Before,
    /// The nearest encoded tick.
    At(u64),
    /// The nearest tick is after the last partition's end.
    After,
}

impl Ticks {
    /// Whether the two are one.
    pub fn is_same(self, other: Ticks) -> bool
        ensures { IsTrue result ↔ (self ≡ other) }
    {
        match (self, other) {
            (Ticks::Before, Ticks::Before) | (Ticks::After, Ticks::After) => true,
            (Ticks::At(a), Ticks::At(b)) => a == b,
            _ => false,
        }
    }
}

/// The ticks of the two ends of an enclosure, which are not one.
#[derive(Clone, Copy, Debug, PartialEq, Eq, Error)]
#[error("two ticks may be meant")]
pub struct TicksUndecided {
    pub lo: Ticks,
    pub hi: Ticks,
}
