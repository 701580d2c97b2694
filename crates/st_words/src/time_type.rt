//! The types of times: how a time of a system is written.

ghost use Rattle.std.specs.Prelude.{◌≡◌};
ghost use Rattle.st_words.specs.WordsMachine as machine;
ghost use Rattle.st_words.specs.Kinds.{is_type_of};

use st_dates::System;

/// How a time is written. Source: the CHRONOS User's Guide, on time types, of which these are a part.
#[derive(Clone, Copy, Debug, PartialEq, Eq)]
pub enum TimeType {
    /// A calendar date
    Scet,
    /// Seconds past J2000
    Seconds,
    /// A clock string
    Sclk,
    /// Encoded ticks of a clock
    Ticks,
}

/// The type that a word names, in any letter case.
#[tactic(auto, unfolding(crate::specs::WordsMachine::type_of))]
pub fn type_of(word: &[u8]) -> Option<TimeType>
    ensures { result ≡ machine.type_of word.now }
{
    if word.eq_ignore_ascii_case(b"SCET") {
        Some(TimeType::Scet)
    } else if word.eq_ignore_ascii_case(b"SECONDS") {
        Some(TimeType::Seconds)
    } else if word.eq_ignore_ascii_case(b"SCLK") {
        Some(TimeType::Sclk)
    } else if word.eq_ignore_ascii_case(b"TICKS") {
        Some(TimeType::Ticks)
    } else {
        None
    }
}

/// Whether times of the system are written by the type.
pub fn fits(system: System, kind: TimeType) -> bool
    ensures { result ≡ is_type_of system kind }
{
    match system {
        System::Utc => kind == TimeType::Scet,
        System::Tai | System::Tt | System::Tdb => {
            kind == TimeType::Scet || kind == TimeType::Seconds
        }
        System::Sclk => kind == TimeType::Sclk || kind == TimeType::Ticks,
    }
}
