//! Numbers and dates among the values.

ghost use Rattle.std.specs.Prelude.{◌≡◌};
ghost use Rattle.st_kernel_text.specs.ValueMachine as spec;
ghost use Rattle.st_kernel_text.specs.Values as values;

use crate::fault::TextCause;
use st_dates::read_at_date;
use st_decimal::{Dec, read_dec};

/// The most bytes that a number may have; no line has more.
const MOST_BYTES: usize = 1000;

/// The number that a run of bytes spells, or the seconds of a date after an `@`.
#[tactic(auto, unfolding(crate::specs::ValueMachine::number_of_run))]
pub fn read_run(run: &[u8]) -> Option<Dec>
    ensures { result ≡ spec.number_of_run run.now }
{
    match run {
        [] => None,
        [b'@', date @ ..] => read_date(date),
        _ => read_number(run),
    }
}

/// What a run that spells no number is called.
pub fn cause_of_run(run: &[u8]) -> TextCause
    ensures { result ≡ values.cause_of_run run.now }
{
    match run {
        [b'@', ..] => TextCause::BadDate,
        _ => TextCause::BadNumber,
    }
}

fn read_number(run: &[u8]) -> Option<Dec>
    ensures { result ≡ spec.short_number run.now }
{
    if run.len() > MOST_BYTES {
        return None;
    }
    match read_dec(run) {
        Ok(number) => Some(number),
        Err(_) => None,
    }
}

fn read_date(text: &[u8]) -> Option<Dec>
    ensures { result ≡ spec.date_number text.now }
{
    match read_at_date(text) {
        Ok(instant) => Some(Dec::from_units18(instant)),
        Err(_) => None,
    }
}
