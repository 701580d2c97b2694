//! The time of day after the day of a date.

ghost use Rattle.std.specs.Prelude.{◌≡◌, ◌<◌, ◌*◌, ◌^◌, IfSome, option_copied};
ghost use Rattle.st_dates.specs.TimeTextMachine as machine;
ghost use Rattle.st_dates.specs.TimeTextMachine.{time_of_text};

use crate::clock::{MINUTE, read_clock};

/// The units of the day that the text after a day tells: none where it tells no time.
#[tactic(auto, unfolding(crate::specs::TimeTextMachine::time_of_text))]
pub(crate) fn read_time(text: &[u8]) -> Option<u128>
    ensures value { result ≡ time_of_text text.now }
    ensures below { IfSome result (λ units. units < 86_400 * 10 ^ 18) }
{
    if text.is_empty() {
        return Some(0);
    }
    let time = read_clock(past_mark(text)?, 59)?;
    Some(u128::from(time.minute) * MINUTE + time.units)
}

/// What stands after a `/`, `//`, `T`, `t` or `-` with which a text begins.
#[tactic(auto, unfolding(crate::specs::TimeTextMachine::past_mark, crate::specs::TimeTextMachine::past_slash))]
fn past_mark(text: &[u8]) -> Option<&[u8]>
    ensures { option_copied result ≡ machine.past_mark text.now }
{
    match text {
        [b'/', b'/', rest @ ..] => Some(rest),
        [b'/' | b'T' | b't' | b'-', rest @ ..] => Some(rest),
        _ => None,
    }
}
