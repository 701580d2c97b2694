//! The ticks of a source or target clock.

ghost use Rattle.std.specs.Prelude.{◌≡◌, ◌≤◌, ◌<◌, ℕ, List, Result, IfOk, IsTrue, min};
ghost use Rattle.st_text.specs.Bytes as bytes;
ghost use Rattle.st_text.specs.Bytes.{decimal_digits, number_of};
ghost use Rattle.st_ticks.specs.Face as faces;
ghost use Rattle.st_ticks.specs.Reading.{ReadsClock};
ghost use Rattle.st_ticks.specs.declared.fault.ClockTextFault.{ClockTextFault as TextFault};
ghost use Rattle.st_clock.specs.Clock.{total};
ghost use Rattle.st_clock.specs.declared.point.Point.{Point as Parted};
ghost use Rattle.st_routes.specs.Outcome.{IsTickText};
ghost use Rattle.st_routes.specs.Route.{IsSource};
ghost use Rattle.st_routes.specs.Source.{ReadsNumber, ReadsTick, TickGives, TimeGives};
ghost use Rattle.st_routes.specs.declared.fault.TimeFault.{TimeFault as Fault};

use crate::fault::TimeFault;
use st_clock::{Clock, Point};
use st_decimal::{Line, OutOfMemory};
use st_text::{are_digits, put_padded};
use st_ticks::laws::reading;
use st_ticks::{ClockTextFault, Face};
use std::alloc::Global;

/// The greatest number of a tick.
const MOST_TICKS: u64 = 1_000_000_000_000_000_000;

/// One more than that.
const CAP: u128 = 1_000_000_000_000_000_001;

/// How the ticks of a clock are told.
#[derive(Clone, Copy, Debug, PartialEq, Eq)]
pub enum TickForm {
    /// As clock strings.
    Clock,
    /// As the number of the encoded tick.
    Ticks,
}

/// The encoded tick of a text of a clock, at most the ticks of all its partitions.
///
/// A clock string is one that [`st_ticks::Face::read_clock`] reads. The number of a tick is a run of digits, with no blanks.
///
/// # Errors
///
/// `BadClockText`: for a string its first refusal, and for a number `Form` where it is none, `TooLarge` above 10^18, and
/// `NotInPartition` above the ticks of all partitions, in this order.
pub fn read_tick(text: &[u8], clock: &Clock, form: TickForm) -> Result<u64, TimeFault>
    ensures gives { TickGives clock.now form text.now result }
    // No other answer meets it.
    ensures only { (answer : Result ℕ Fault) → TickGives clock.now form text.now answer → result ≡ answer }
    ensures within { IfOk result (λ tick. tick ≤ total clock.now) }
{
    Ok(find_tick(text, clock, form)?)
}

fn find_tick(text: &[u8], clock: &Clock, form: TickForm) -> Result<u64, ClockTextFault>
    ensures reads { ReadsTick clock.now form text.now result }
    ensures only { (answer : Result ℕ TextFault) → ReadsTick clock.now form text.now answer → result ≡ answer }
    ensures within { IfOk result (λ tick. tick ≤ total clock.now) }
{
    match form {
        TickForm::Clock => read_string(text, clock.face()),
        TickForm::Ticks => read_number(text, clock.face().total()),
    }
}

/// The tick of a clock string, which is one of the clock.
fn read_string(text: &[u8], face: &Face) -> Result<u64, ClockTextFault>
    ensures reads { ReadsClock face.now text.now result }
    ensures only { (answer : Result ℕ TextFault) → ReadsClock face.now text.now answer → result ≡ answer }
    ensures within { IfOk result (λ tick. tick ≤ faces.total face.now) }
{
    // What is true of each face comes with its total, and by the law a string's tick is one of the clock.
    let _total = face.total();
    reading();
    face.read_clock(text)
}

/// The time of an encoded tick, in the clock's scale.
///
/// # Errors
///
/// `BeforeClock` exactly where the tick is before the first record's, and `OutOfRange` exactly where the time lies
/// outside the range of times.
pub fn tick_time(clock: &Clock, tick: u64) -> Result<Point, TimeFault>
    ensures gives { TimeGives clock.now tick result }
    // No other answer meets it.
    ensures only { (answer : Result Parted Fault) → TimeGives clock.now tick answer → result ≡ answer }
    ensures part { IfOk result (λ time. time.part < time.of) }
    ensures range { IfOk result (λ time. IsSource time.units) }
{
    Ok(clock.time_of(tick)?)
}

/// The text of an encoded tick: its canonical spelling, or its number. The tick is at most the ticks of all partitions.
///
/// # Errors
///
/// Want of memory alone.
pub fn spell_tick(
    alloc: Global,
    clock: &Clock,
    tick: u64,
    form: TickForm,
) -> Result<Line, OutOfMemory>
    requires { tick ≤ total clock.now }
    ensures gives { IfOk result (IsTickText clock.now form tick) }
    // No other text meets it.
    ensures only { (text : List ℕ) → IsTickText clock.now form tick text → IfOk result (λ line. line ≡ text) }
{
    match form {
        TickForm::Clock => clock.face().write_clock(alloc, tick),
        TickForm::Ticks => number_text(alloc, tick),
    }
}

/// The number of a tick, of as many as the total says.
fn read_number(text: &[u8], total: u64) -> Result<u64, ClockTextFault>
    ensures reads { ReadsNumber total text.now result }
    ensures only { (answer : Result ℕ TextFault) → ReadsNumber total text.now answer → result ≡ answer }
    ensures within { IfOk result (λ tick. tick ≤ total) }
{
    find_number(text, total)
}

fn find_number(text: &[u8], total: u64) -> Result<u64, ClockTextFault>
    ensures { ReadsNumber total text.now result }
{
    if text.is_empty() || !are_digits(text) {
        return Err(ClockTextFault::Form);
    }
    let tick = capped_number(text);
    if tick > MOST_TICKS {
        Err(ClockTextFault::TooLarge)
    } else if tick > total {
        Err(ClockTextFault::NotInPartition)
    } else {
        Ok(tick)
    }
}

/// The number that digits spell, and no more than one above the greatest that is taken.
fn capped_number(digits: &[u8]) -> u64
    requires { IsTrue (bytes.are_digits digits.now) }
    ensures { result ≡ min (number_of digits.now) 1_000_000_000_000_000_001 }
{
    let mut number = 0;
    for byte in digits {
        let more = 10 * number + u128::from(byte.saturating_sub(b'0'));
        number = more.min(CAP);
    }
    number as u64
}

/// The text of a number.
fn number_text(alloc: Global, number: u64) -> Result<Line, OutOfMemory>
    ensures { IfOk result (λ line. line ≡ decimal_digits number) }
{
    let mut text = Vec::new(alloc);
    put_padded(&mut text, u128::from(number), 1)?;
    Ok(Line::from_vec(text))
}
