//! A time text by its form: what stands in it, before the calendar and the range are asked.

ghost use Rattle.std.specs.Prelude.{◌≡◌, IfSome};
ghost use Rattle.st_forms.specs.ReadingMachine as machine;
ghost use Rattle.st_forms.specs.ReadingMachine.{scale_of, IsSmall};

use crate::Form;
use crate::date::read_date;
use crate::number::read_number;
use crate::tail::{read_scale, read_tail};
use crate::words::{past_gap, split_word};
use st_dates::{CalendarDate, SECOND, System, TimeOfDay};

/// The Julian date of J2000, in units of 10^-18 days.
const J2000: i128 = 2_451_545 * SECOND;

/// What a time text spells.
#[derive(Clone, Copy)]
pub enum Reading {
    /// A calendar date with a time of day.
    Dated {
        date: CalendarDate,
        time: TimeOfDay,
        scale: Option<System>,
    },
    /// A Julian date, as units of 10^-18 s past J2000.
    Julian {
        instant: i128,
        scale: Option<System>,
    },
    /// Plain seconds, as units of 10^-18 s past J2000.
    Plain {
        instant: i128,
    },
}

impl Reading {
    /// Whether a source of this system and form takes what was read.
    pub(crate) fn is_taken(self, system: System, form: Form) -> bool
        ensures { result ≡ machine.is_taken system form self }
    {
        match self {
            Reading::Dated { .. } => form != Form::Seconds,
            Reading::Julian { .. } => form != Form::Seconds && system != System::Utc,
            Reading::Plain { .. } => form != Form::Calendar && system != System::Utc,
        }
    }

    /// The system that a word in the text names.
    pub(crate) fn scale(self) -> Option<System>
        ensures { result ≡ scale_of self }
    {
        match self {
            Reading::Dated { scale, .. } | Reading::Julian { scale, .. } => scale,
            Reading::Plain { .. } => None,
        }
    }
}

/// What a text spells, where it has a form of a time. Each form is tried only where those before it failed.
#[tactic(auto, unfolding(crate::specs::ReadingMachine::reading_of))]
pub(crate) fn find_reading(text: &[u8]) -> Option<Reading>
    ensures value { result ≡ machine.reading_of text.now }
    ensures small { IfSome result IsSmall }
{
    if let Some(seconds) = read_seconds(text) {
        return Some(seconds);
    }
    if let Some(julian) = read_julian(text) {
        return Some(julian);
    }
    read_dated(text)
}

/// Plain seconds: a sign or none, and a decimal.
#[tactic(auto, unfolding(crate::specs::ReadingMachine::seconds_of_text, crate::specs::ReadingMachine::past_sign))]
fn read_seconds(text: &[u8]) -> Option<Reading>
    ensures value { result ≡ machine.seconds_of_text text.now }
    ensures small { IfSome result IsSmall }
{
    let instant = match text {
        [b'-', rest @ ..] => -(read_number(rest)? as i128),
        [b'+', rest @ ..] => read_number(rest)? as i128,
        _ => read_number(text)? as i128,
    };
    Some(Reading::Plain { instant })
}

/// A Julian date: `JD`, blanks, a decimal, and a word that names a system where there is one.
#[tactic(auto, unfolding(crate::specs::ReadingMachine::julian_of_text))]
fn read_julian(text: &[u8]) -> Option<Reading>
    ensures value { result ≡ machine.julian_of_text text.now }
    ensures small { IfSome result IsSmall }
{
    let (mark, rest) = split_word(text);
    if !mark.eq_ignore_ascii_case(b"JD") {
        return None;
    }
    read_days(past_gap(rest)?)
}

/// The days of a Julian date, and the word after them.
#[tactic(auto, unfolding(crate::specs::ReadingMachine::julian_days))]
fn read_days(text: &[u8]) -> Option<Reading>
    ensures value { result ≡ machine.julian_days text.now }
    ensures small { IfSome result IsSmall }
{
    let (days, rest) = split_word(text);
    let instant = (read_number(days)? as i128 - J2000) * 86_400;
    Some(Reading::Julian {
        instant,
        scale: read_scale(rest)?,
    })
}

/// A calendar date, and what follows it.
#[tactic(auto, unfolding(crate::specs::ReadingMachine::dated_of_text))]
fn read_dated(text: &[u8]) -> Option<Reading>
    ensures value { result ≡ machine.dated_of_text text.now }
    ensures small { IfSome result IsSmall }
{
    let (date, rest) = read_date(text)?;
    let (time, scale) = read_tail(rest)?;
    Some(Reading::Dated { date, time, scale })
}
