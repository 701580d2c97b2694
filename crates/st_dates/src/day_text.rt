//! The day of a date, as four forms write it.

ghost use Rattle.std.specs.Prelude.{◌≡◌, ℤ, List, ℕ, ◌≤◌, length, Some, MatchOption, IfSome};
ghost use Rattle.std.specs.List.{prefix_len};
ghost use Rattle.st_text.specs.Scan.{leading, behind};
ghost use Rattle.st_dates.specs.DayText.{BeginsWithDay, BeginsNoDigit, IsDayNumber};
ghost use Rattle.st_dates.specs.DayTextMachine as machine;
ghost use Rattle.st_dates.specs.DayTextMachine.{month_of_name, number_in, is_no_dash, HasFourDigits};
ghost use Rattle.st_dates.specs.declared.day_text.CalendarDate.{CalendarDate as Date};

use crate::{day_of, day_of_doy, month_of};
use st_text::{after, has_length, read_digits, split_digits};

/// A date as a text names it, whether the calendar has it or not.
#[derive(Clone, Copy, Debug, PartialEq, Eq, Hash)]
pub enum CalendarDate {
    /// A day of a month.
    OfMonth { year: u32, month: u32, day: u32 },
    /// A place in a year, from 1.
    OfYear { year: u32, place: u32 },
}

/// The date with which a text begins, and the rest of the text: one of `YYYY-MM-DD`, `YYYY-MON-D`,
/// `D-MON-YYYY` and `YYYY-DOY`, whether the calendar has it or not.
pub fn read_day(text: &[u8]) -> Option<(CalendarDate, &[u8])>
    ensures reads { IfSome result (λ p. BeginsWithDay text.now p.0 p.1.now) }
    ensures only { (date : Date) (rest : List ℕ) → BeginsWithDay text.now date rest → BeginsNoDigit rest
        → MatchOption result ⊥ (λ p. (p.0 ≡ date) × (p.1.now ≡ rest)) }
    ensures year { IfSome result (λ p. HasFourDigits p.0) }
    ensures exact { MatchOption result (machine.day_of_text text.now ≡ None)
        (λ p. machine.day_of_text text.now ≡ Some (p.0, p.1.now)) }
{
    find_day(text)
}

#[tactic(auto, unfolding(crate::specs::DayTextMachine::day_of_text))]
fn find_day(text: &[u8]) -> Option<(CalendarDate, &[u8])>
    ensures value { MatchOption result (machine.day_of_text text.now ≡ None)
        (λ p. machine.day_of_text text.now ≡ Some (p.0, p.1.now)) }
    ensures year { IfSome result (λ p. HasFourDigits p.0) }
{
    let (first, rest) = split_digits(text);
    if first.len() == 4 {
        year_first(read_digits(first) as u32, after(rest, b'-')?)
    } else if has_length(first, 1, 2) {
        month_next(read_digits(first) as u32, after(rest, b'-')?)
    } else {
        None
    }
}

/// The date that a year and what follows its dash begin with.
#[tactic(auto, unfolding(crate::specs::DayTextMachine::year_first))]
fn year_first(year: u32, text: &[u8]) -> Option<(CalendarDate, &[u8])>
    requires { year ≤ 9999 }
    ensures value { MatchOption result (machine.year_first year text.now ≡ None)
        (λ p. machine.year_first year text.now ≡ Some (p.0, p.1.now)) }
    ensures year { IfSome result (λ p. HasFourDigits p.0) }
{
    let (second, rest) = split_digits(text);
    if second.is_empty() {
        let (month, behind) = read_month(text)?;
        with_day(year, month, behind)
    } else if second.len() == 3 {
        let place = read_digits(second) as u32;
        Some((CalendarDate::OfYear { year, place }, rest))
    } else if has_length(second, 1, 2) {
        with_day(year, read_digits(second) as u32, after(rest, b'-')?)
    } else {
        None
    }
}

/// The date that a day and what follows its dash begin with.
#[tactic(auto, unfolding(crate::specs::DayTextMachine::month_next))]
fn month_next(day: u32, text: &[u8]) -> Option<(CalendarDate, &[u8])>
    ensures value { MatchOption result (machine.month_next day text.now ≡ None)
        (λ p. machine.month_next day text.now ≡ Some (p.0, p.1.now)) }
    ensures year { IfSome result (λ p. HasFourDigits p.0) }
{
    let (month, rest) = read_month(text)?;
    with_year(month, day, rest)
}

/// The month whose name a text begins with, and what stands after the name and a dash.
#[tactic(auto, unfolding(crate::specs::DayTextMachine::month_of_name))]
fn read_month(text: &[u8]) -> Option<(u32, &[u8])>
    ensures { MatchOption result (month_of_name text.now ≡ None)
        (λ p. month_of_name text.now ≡ Some (p.0, p.1.now)) }
{
    let (name, rest) = split_name(text);
    let month = month_of(name)?;
    let behind = after(rest, b'-')?;
    Some((u32::from(month), behind))
}

/// What stands before the first `-` of a text, and the rest of it, from the `-` on.
#[tactic(auto, using(crate::proofs::Scans::cut))]
fn split_name(text: &[u8]) -> (&[u8], &[u8])
    ensures name { result.0.now ≡ leading is_no_dash text.now }
    ensures rest { result.1.now ≡ behind is_no_dash text.now }
{
    let end = count_to_dash(text);
    (&text[..end], &text[end..])
}

/// How many bytes stand before the first `-`, or the text's length where there is none.
fn count_to_dash(text: &[u8]) -> usize
    ensures value { result ≡ prefix_len is_no_dash text.now }
    ensures within { result ≤ length text.now }
{
    text.iter().take_while(|byte| **byte != b'-').count()
}

/// The date of a year, a month and the day that a text begins with.
#[tactic(auto, unfolding(crate::specs::DayTextMachine::with_day))]
fn with_day(year: u32, month: u32, text: &[u8]) -> Option<(CalendarDate, &[u8])>
    requires { year ≤ 9999 }
    ensures value { MatchOption result (machine.with_day year month text.now ≡ None)
        (λ p. machine.with_day year month text.now ≡ Some (p.0, p.1.now)) }
    ensures year { IfSome result (λ p. HasFourDigits p.0) }
{
    let (digits, rest) = split_digits(text);
    if !has_length(digits, 1, 2) {
        return None;
    }
    let day = read_digits(digits) as u32;
    Some((CalendarDate::OfMonth { year, month, day }, rest))
}

/// The date of a month, a day and the year that a text begins with.
#[tactic(auto, unfolding(crate::specs::DayTextMachine::with_year))]
fn with_year(month: u32, day: u32, text: &[u8]) -> Option<(CalendarDate, &[u8])>
    ensures value { MatchOption result (machine.with_year month day text.now ≡ None)
        (λ p. machine.with_year month day text.now ≡ Some (p.0, p.1.now)) }
    ensures year { IfSome result (λ p. HasFourDigits p.0) }
{
    let (digits, rest) = split_digits(text);
    if digits.len() != 4 {
        return None;
    }
    let year = read_digits(digits) as u32;
    Some((CalendarDate::OfMonth { year, month, day }, rest))
}

impl CalendarDate {
    /// The days from 2000-01-01 to the date, or `None` where the calendar has no such day. The year has
    /// at most four digits.
    pub fn day(self) -> Option<i32>
        requires { HasFourDigits self }
        ensures some { IfSome result (IsDayNumber self) }
        ensures only { (n : ℤ) → IsDayNumber self n → result ≡ Some n }
        ensures exact { result ≡ number_in self }
    {
        find_number(self)
    }
}

#[tactic(auto, using(crate::proofs::DayLemmas::year_as_i32), unfolding(crate::specs::DayTextMachine::number_in))]
fn find_number(date: CalendarDate) -> Option<i32>
    requires { HasFourDigits date }
    ensures { result ≡ number_in date }
{
    match date {
        CalendarDate::OfMonth { year, month, day } => day_of(year as i32, month, day),
        CalendarDate::OfYear { year, place } => day_of_doy(year as i32, place),
    }
}
