//! The label or the instant of a time text.

ghost use Rattle.std.specs.Prelude.{◌≡◌, ◌≢◌, ◌<◌, ◌*◌, ◌^◌, Result, IfOk};
ghost use Rattle.st_dates.specs.DayTextMachine.{number_in, HasFourDigits};
ghost use Rattle.st_forms.specs.Reading.{ReadsTime, IsGood};
ghost use Rattle.st_forms.specs.ReadingMachine as machine;
ghost use Rattle.st_forms.specs.ReadingMachine.{time_of_text, IsSmall};
ghost use Rattle.st_forms.specs.declared.fault.FormFault.{FormFault as Fault};
ghost use Rattle.st_forms.specs.declared.time.TimeText.{TimeText as Time};

use crate::reading::{Reading, find_reading};
use crate::{Form, FormFault};
use st_dates::{CalendarDate, FIRST, LAST, Label, SECOND, System, TimeOfDay, is_in_range};
use st_text::trim;

/// The units of 10^-18 s in a minute of 60 s.
const MINUTE: u128 = 60 * SECOND as u128;

/// The minute 23:59, counted from 00:00.
const LAST_MINUTE: u32 = 1439;

/// What a time text stands for.
#[derive(Clone, Copy, Debug, PartialEq, Eq, Hash)]
pub enum TimeText {
    /// The label of a calendar date and its time. The second 60 of 23:59 is one of the day.
    Label(Label),
    /// The instant of a Julian date or of plain seconds, in units of 10^-18 s past J2000.
    Instant(i128),
    /// A calendar date whose seconds are 60 in another minute than 23:59. No system has that second.
    NoSecond,
}

/// The label or the instant of a time text of a source's system, or its first refusal.
///
/// Blanks, which are spaces and tabs, are dropped at both ends, and letters are read in any case. A
/// calendar date is one of `YYYY-N1-N1`, `YYYY-N3`, `YYYY MON N1`, `YYYY-MON-N1`, `N1 MON YYYY`,
/// `N1-MON-YYYY`, `MON N1, YYYY` and `N1/N1/YYYY` with the month first, where N1 is one or two digits,
/// N3 three, and MON a month's name or its first three letters. A time may follow `T` or blanks: hours
/// to 23, minutes to 59 and seconds to 60, as `N1:N1`, `N1:N1:N1` or with 1 to 12 decimals; without one
/// it is midnight. A Julian date is `JD`, blanks and a decimal, which counts days. After blanks a
/// scale word may follow both: `UTC`, `TAI`, `TT`, `TDT`, `TDB` or `ET`. A plain decimal counts seconds
/// past J2000. The system is none of a spacecraft's clock.
///
/// # Errors
///
/// `BadTime` where the text has none of the forms that are taken, `WrongSystem` where its scale word
/// names another system, `NoSuchDay` where the calendar has no such day, and `OutOfRange` outside
/// the range of times, in this order.
///
/// The forms are some of those of NAIF's Time Required Reading.
pub fn read_time(text: &[u8], system: System, form: Form) -> Result<TimeText, FormFault>
    requires { system ≢ System.Sclk }
    ensures reads { ReadsTime text.now system form result }
    ensures only { (answer : Result Time Fault) → ReadsTime text.now system form answer → result ≡ answer }
    ensures good { IfOk result IsGood }
    ensures exact { result ≡ time_of_text text.now system form }
{
    find_time(text, system, form)
}

#[tactic(auto, unfolding(crate::specs::ReadingMachine::time_of_text))]
fn find_time(text: &[u8], system: System, form: Form) -> Result<TimeText, FormFault>
    ensures value { result ≡ time_of_text text.now system form }
    ensures good { IfOk result IsGood }
{
    match find_reading(trim(text)) {
        Some(reading) if reading.is_taken(system, form) => answer(reading, system),
        _ => Err(FormFault::BadTime),
    }
}

/// The answer to what was read.
fn answer(reading: Reading, system: System) -> Result<TimeText, FormFault>
    requires { IsSmall reading }
    ensures value { result ≡ machine.checked system reading }
    ensures good { IfOk result IsGood }
{
    if names_other(reading.scale(), system) {
        return Err(FormFault::WrongSystem);
    }
    match reading {
        Reading::Dated { date, time, .. } => labelled(date, time),
        Reading::Julian { instant, .. } => ranged(instant),
        Reading::Plain { instant } => ranged(instant),
    }
}

/// Whether a scale word names another system.
fn names_other(scale: Option<System>, system: System) -> bool
    ensures { result ≡ machine.names_other system scale }
{
    match scale {
        Some(named) => named != system,
        None => false,
    }
}

/// The label of a date and a time of day, or why there is none.
fn labelled(date: CalendarDate, time: TimeOfDay) -> Result<TimeText, FormFault>
    requires year { HasFourDigits date }
    requires minute { time.minute < 1440 }
    requires units { time.units < 61 * 10 ^ 18 }
    ensures value { result ≡ machine.on_day time (number_in date) }
    ensures good { IfOk result IsGood }
{
    let Some(day) = date.day() else {
        return Err(FormFault::NoSuchDay);
    };
    let label = Label {
        day,
        of_day: (u128::from(time.minute) * MINUTE + time.units) as i128,
    };
    if !is_in_range(label) {
        Err(FormFault::OutOfRange)
    } else if is_no_second(time) {
        Ok(TimeText::NoSecond)
    } else {
        Ok(TimeText::Label(label))
    }
}

/// Whether the seconds are 60 in another minute than 23:59.
fn is_no_second(time: TimeOfDay) -> bool
    ensures { result ≡ machine.is_no_second time }
{
    time.units >= MINUTE && time.minute != LAST_MINUTE
}

/// The instant, where it lies in the range.
fn ranged(instant: i128) -> Result<TimeText, FormFault>
    ensures value { result ≡ machine.ranged instant }
    ensures good { IfOk result IsGood }
{
    if FIRST <= instant && instant <= LAST {
        Ok(TimeText::Instant(instant))
    } else {
        Err(FormFault::OutOfRange)
    }
}
