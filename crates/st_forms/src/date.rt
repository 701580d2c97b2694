//! The calendar date with which a text begins.

ghost use Rattle.std.specs.Prelude.{◌≡◌, ◌≤◌, MatchOption, IfSome};
ghost use Rattle.st_dates.specs.DayTextMachine.{HasFourDigits};
ghost use Rattle.st_forms.specs.DateMachine as machine;

use crate::words::{past_gap, read_run, split_word};
use st_dates::{CalendarDate, month_of, read_day};
use st_text::{after, skip_blanks};

/// The date with which a text begins, and the rest.
#[tactic(auto, unfolding(crate::specs::DateMachine::date_of_text))]
pub(crate) fn read_date(text: &[u8]) -> Option<(CalendarDate, &[u8])>
    ensures value { MatchOption result (machine.date_of_text text.now ≡ None)
        (λ p. machine.date_of_text text.now ≡ Some (p.0, p.1.now)) }
    ensures year { IfSome result (λ p. HasFourDigits p.0) }
{
    if let Some(dashed) = read_day(text) {
        return Some(dashed);
    }
    if let Some(year_first) = read_year_first(text) {
        return Some(year_first);
    }
    if let Some(day_first) = read_day_first(text) {
        return Some(day_first);
    }
    if let Some(slashed) = read_slashed(text) {
        return Some(slashed);
    }
    read_month_first(text)
}

/// A month's name up to a blank, and what stands after it and the blanks.
#[tactic(auto, unfolding(crate::specs::DateMachine::named_month))]
fn read_month(text: &[u8]) -> Option<(u32, &[u8])>
    ensures { MatchOption result (machine.named_month text.now ≡ None)
        (λ p. machine.named_month text.now ≡ Some (p.0, p.1.now)) }
{
    let (word, rest) = split_word(text);
    let month = month_of(word)?;
    let behind = past_gap(rest)?;
    Some((u32::from(month), behind))
}

/// `YYYY MON N1`
#[tactic(auto, unfolding(crate::specs::DateMachine::year_first))]
fn read_year_first(text: &[u8]) -> Option<(CalendarDate, &[u8])>
    ensures value { MatchOption result (machine.year_first text.now ≡ None)
        (λ p. machine.year_first text.now ≡ Some (p.0, p.1.now)) }
    ensures year { IfSome result (λ p. HasFourDigits p.0) }
{
    let (year, rest) = read_run(text, 4, 4)?;
    let (month, rest) = read_month(past_gap(rest)?)?;
    let (day, rest) = read_run(rest, 1, 2)?;
    Some((CalendarDate::OfMonth { year, month, day }, rest))
}

/// `N1 MON YYYY`
#[tactic(auto, unfolding(crate::specs::DateMachine::day_first))]
fn read_day_first(text: &[u8]) -> Option<(CalendarDate, &[u8])>
    ensures value { MatchOption result (machine.day_first text.now ≡ None)
        (λ p. machine.day_first text.now ≡ Some (p.0, p.1.now)) }
    ensures year { IfSome result (λ p. HasFourDigits p.0) }
{
    let (day, rest) = read_run(text, 1, 2)?;
    let (month, rest) = read_month(past_gap(rest)?)?;
    let (year, rest) = read_run(rest, 4, 4)?;
    Some((CalendarDate::OfMonth { year, month, day }, rest))
}

/// `N1/N1/YYYY`, the month first
#[tactic(auto, unfolding(crate::specs::DateMachine::slashed))]
fn read_slashed(text: &[u8]) -> Option<(CalendarDate, &[u8])>
    ensures value { MatchOption result (machine.slashed text.now ≡ None)
        (λ p. machine.slashed text.now ≡ Some (p.0, p.1.now)) }
    ensures year { IfSome result (λ p. HasFourDigits p.0) }
{
    let (month, rest) = read_run(text, 1, 2)?;
    let (day, rest) = read_run(after(rest, b'/')?, 1, 2)?;
    let (year, rest) = read_run(after(rest, b'/')?, 4, 4)?;
    Some((CalendarDate::OfMonth { year, month, day }, rest))
}

/// `MON N1, YYYY`
#[tactic(auto, unfolding(crate::specs::DateMachine::month_first))]
fn read_month_first(text: &[u8]) -> Option<(CalendarDate, &[u8])>
    ensures value { MatchOption result (machine.month_first text.now ≡ None)
        (λ p. machine.month_first text.now ≡ Some (p.0, p.1.now)) }
    ensures year { IfSome result (λ p. HasFourDigits p.0) }
{
    let (month, rest) = read_month(text)?;
    let (day, rest) = read_run(rest, 1, 2)?;
    let (year, rest) = read_run(skip_blanks(after(rest, b',')?), 4, 4)?;
    Some((CalendarDate::OfMonth { year, month, day }, rest))
}
