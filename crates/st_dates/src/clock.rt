//! Times of day, as hours, minutes and seconds with colons between them.

ghost use Rattle.std.specs.Prelude.{◌≡◌, ◌≤◌, ◌<◌, ◌+◌, ◌*◌, ◌^◌, MatchOption, IfSome, Some};
ghost use Rattle.st_dates.specs.TimeText.{SpellsClock};
ghost use Rattle.st_dates.specs.TimeTextMachine as machine;
ghost use Rattle.st_dates.specs.TimeTextMachine.{clock_of, seconds_of};
ghost use Rattle.st_dates.specs.declared.clock.TimeOfDay.{TimeOfDay as Time};

use crate::decimals::read_decimals;
use crate::label;
use st_text::{after, has_length, read_digits, split_digits};

/// The units in a second.
const SECOND: u128 = label::SECOND as u128;

/// The units in a minute.
pub(crate) const MINUTE: u128 = 60 * SECOND;

/// A time of day: its minute, from 0 for 00:00 to 1439 for 23:59, and what has passed of that minute,
/// in units of 10^-18 s. A minute has 61 s where the second 60 is taken.
#[derive(Clone, Copy, Debug, PartialEq, Eq, Hash)]
pub struct TimeOfDay {
    pub minute: u32,
    pub units: u128,
}

/// The time of day that a text tells as `H:MM`, `H:MM:SS` or `H:MM:SS.f`, with 1 to 12 decimals and
/// fields of one or two digits: hours to 23, minutes to 59, and seconds to the last that is taken.
/// None where the text has another form.
pub fn read_clock(text: &[u8], last_second: u64) -> Option<TimeOfDay>
    ensures reads { IfSome result (SpellsClock last_second text.now) }
    ensures only { (time : Time) → SpellsClock last_second text.now time → result ≡ Some time }
    ensures minute { IfSome result (λ time. time.minute < 1440) }
    ensures units { IfSome result (λ time. time.units < (last_second + 1) * 10 ^ 18) }
    ensures exact { result ≡ clock_of last_second text.now }
{
    find_time(text, last_second)
}

#[tactic(auto, unfolding(crate::specs::TimeTextMachine::clock_of))]
fn find_time(text: &[u8], last_second: u64) -> Option<TimeOfDay>
    ensures value { result ≡ clock_of last_second text.now }
    ensures minute { IfSome result (λ time. time.minute < 1440) }
    ensures units { IfSome result (λ time. time.units < (last_second + 1) * 10 ^ 18) }
{
    let (hour, rest) = read_field(text, 23)?;
    let (minute, rest) = read_field(after(rest, b':')?, 59)?;
    let units = read_seconds(rest, last_second)?;
    Some(TimeOfDay {
        minute: (60 * hour + minute) as u32,
        units,
    })
}

/// The seconds of a minute as units: `:SS` or `:SS.f` or nothing.
#[tactic(auto, unfolding(crate::specs::TimeTextMachine::seconds_of))]
fn read_seconds(text: &[u8], last: u64) -> Option<u128>
    ensures value { result ≡ seconds_of last text.now }
    ensures below { IfSome result (λ units. units < (last + 1) * 10 ^ 18) }
{
    if text.is_empty() {
        return Some(0);
    }
    let (second, rest) = read_field(after(text, b':')?, last)?;
    Some(u128::from(second) * SECOND + u128::from(read_decimals(rest)?))
}

/// One or two digits with which a text begins, of a number that is at most `last`, and the rest.
#[tactic(auto, unfolding(crate::specs::TimeTextMachine::field))]
fn read_field(text: &[u8], last: u64) -> Option<(u64, &[u8])>
    ensures value { MatchOption result (machine.field last text.now ≡ None)
        (λ p. machine.field last text.now ≡ Some (p.0, p.1.now)) }
    ensures within { IfSome result (λ p. p.0 ≤ last) }
{
    let (digits, rest) = split_digits(text);
    if !has_length(digits, 1, 2) {
        return None;
    }
    let number = read_digits(digits);
    if number <= last {
        Some((number, rest))
    } else {
        None
    }
}
