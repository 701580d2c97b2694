//! What follows a date: a time of day, and the word that names a system.

ghost use Rattle.std.specs.Prelude.{◌≡◌, ◌<◌, ◌*◌, ◌^◌, IfSome};
ghost use Rattle.st_forms.specs.TailMachine as machine;

use crate::words::{past_gap, split_word};
use st_dates::{System, TimeOfDay, read_clock};

/// Where no time is written: the beginning of the day.
const MIDNIGHT: TimeOfDay = TimeOfDay {
    minute: 0,
    units: 0,
};

/// A time of day, and the system that a word after it names.
pub(crate) type Tail = (TimeOfDay, Option<System>);

/// What stands after a date, where that is a time, a word or both, or nothing.
#[tactic(auto, unfolding(crate::specs::TailMachine::tail_of_text))]
pub(crate) fn read_tail(text: &[u8]) -> Option<Tail>
    ensures value { result ≡ machine.tail_of_text text.now }
    ensures minute { IfSome result (λ tail. tail.0.minute < 1440) }
    ensures units { IfSome result (λ tail. tail.0.units < 61 * 10 ^ 18) }
{
    match text {
        [] => Some((MIDNIGHT, None)),
        [b'T' | b't', rest @ ..] => read_timed(rest),
        _ => read_spaced(past_gap(text)?),
    }
}

/// After blanks: a time of day, or the word that names a system.
#[tactic(auto, unfolding(crate::specs::TailMachine::spaced))]
fn read_spaced(text: &[u8]) -> Option<Tail>
    ensures value { result ≡ machine.spaced text.now }
    ensures minute { IfSome result (λ tail. tail.0.minute < 1440) }
    ensures units { IfSome result (λ tail. tail.0.units < 61 * 10 ^ 18) }
{
    match text {
        [first, ..] if first.is_ascii_digit() => read_timed(text),
        _ => Some((MIDNIGHT, Some(system_of(text)?))),
    }
}

/// A time of day up to a blank, and the word after it.
#[tactic(auto, unfolding(crate::specs::TailMachine::timed))]
fn read_timed(text: &[u8]) -> Option<Tail>
    ensures value { result ≡ machine.timed text.now }
    ensures minute { IfSome result (λ tail. tail.0.minute < 1440) }
    ensures units { IfSome result (λ tail. tail.0.units < 61 * 10 ^ 18) }
{
    let (clock, rest) = split_word(text);
    let time = read_clock(clock, 60)?;
    Some((time, read_scale(rest)?))
}

/// The system that a word after blanks names; `Some(None)` where the text has ended.
#[tactic(auto, unfolding(crate::specs::TailMachine::scale_of_text))]
pub(crate) fn read_scale(text: &[u8]) -> Option<Option<System>>
    ensures { result ≡ machine.scale_of_text text.now }
{
    if text.is_empty() {
        return Some(None);
    }
    Some(Some(system_of(past_gap(text)?)?))
}

/// The system that a word names, in any letter case.
#[tactic(auto, unfolding(crate::specs::TailMachine::system_named))]
fn system_of(word: &[u8]) -> Option<System>
    ensures { result ≡ machine.system_named word.now }
{
    if word.eq_ignore_ascii_case(b"UTC") {
        Some(System::Utc)
    } else if word.eq_ignore_ascii_case(b"TAI") {
        Some(System::Tai)
    } else if word.eq_ignore_ascii_case(b"TT") || word.eq_ignore_ascii_case(b"TDT") {
        Some(System::Tt)
    } else if word.eq_ignore_ascii_case(b"TDB") || word.eq_ignore_ascii_case(b"ET") {
        Some(System::Tdb)
    } else {
        None
    }
}
