//! The dates of text kernels, which stand after an `@`.

ghost use Rattle.std.specs.Prelude.{◌≡◌, ◌<◌, ◌*◌, ◌^◌, ℤ, Result};
ghost use Rattle.st_dates.specs.AtDate.{ReadsAtDate, moment};
ghost use Rattle.st_dates.specs.AtDateMachine as machine;
ghost use Rattle.st_dates.specs.AtDateMachine.{at_date_of};
ghost use Rattle.st_dates.specs.declared.fault.DateFault.{DateFault as Fault};

use crate::DateFault;
use crate::day_text::read_day;
use crate::label::{is_ranged, midnight_of};
use crate::time_text::read_time;

/// The instant of a date of a text kernel, whose text stands after an `@`: its formal count, in
/// units of 10^-18 s past 2000-01-01 12:00:00.
///
/// The day is one of `YYYY-MM-DD`, `YYYY-MON-D`, `D-MON-YYYY` and `YYYY-DOY`: a year of four
/// digits, a place in the year of three, a month and a day of one or two, and a month's name or its
/// first three letters in any letter case. A time may follow one of `/`, `//`, `T`, `t` and `-`: it
/// is `H:MM`, `H:MM:SS` or `H:MM:SS.f`, with 1 to 12 decimals.
///
/// Source: NAIF's Kernel Required Reading, which takes dates by the forms of Time Required Reading;
/// which of these are taken is this project's own.
///
/// # Errors
///
/// The first of `DateFault`'s variants whose condition holds.
pub fn read_at_date(text: &[u8]) -> Result<i128, DateFault>
    ensures reads { ReadsAtDate text.now result }
    ensures only { (answer : Result ℤ Fault) → ReadsAtDate text.now answer → result ≡ answer }
    ensures exact { result ≡ at_date_of text.now }
{
    read(text)
}

/// The same by steps, which the public call's clauses are proved from.
#[tactic(auto, unfolding(crate::specs::AtDateMachine::at_date_of, crate::specs::AtDateMachine::parts_of))]
fn read(text: &[u8]) -> Result<i128, DateFault>
    ensures { result ≡ at_date_of text.now }
{
    let Some((date, rest)) = read_day(text) else {
        return Err(DateFault::Form);
    };
    let Some(units) = read_time(rest) else {
        return Err(DateFault::Form);
    };
    match date.day() {
        Some(day) => ranged(moment_of(day, units)),
        None => Err(DateFault::NoSuchDay),
    }
}

/// The formal count of a moment of a day.
fn moment_of(day: i32, units: u128) -> i128
    requires { units < 86_400 * 10 ^ 18 }
    ensures { result ≡ moment day units }
{
    midnight_of(day) + units as i128
}

/// The instant, where it is in the range of times.
fn ranged(instant: i128) -> Result<i128, DateFault>
    ensures { result ≡ machine.ranged instant }
{
    if is_ranged(instant) {
        Ok(instant)
    } else {
        Err(DateFault::OutOfRange)
    }
}

#[cfg(test)]
mod tests {
    use super::*;

    const FORM: Result<i128, DateFault> = Err(DateFault::Form);

    const NO_DAY: Result<i128, DateFault> = Err(DateFault::NoSuchDay);

    const OUT_OF_RANGE: Result<i128, DateFault> = Err(DateFault::OutOfRange);

    /// Units past J2000 from seconds and 10^-12 of a second.
    fn at(seconds: i64, parts: i64) -> Result<i128, DateFault> {
        Ok(i128::from(seconds) * 1_000_000_000_000_000_000 + i128::from(parts) * 1_000_000)
    }

    #[test]
    fn reads_days(rt: HostRuntime) {
        let table: [(&[u8], Result<i128, DateFault>); 30] = [
            (b"1972-JAN-1", at(-883_656_000, 0)),
            (b"1972-JUL-1", at(-867_931_200, 0)),
            (b"2017-jan-01", at(536_500_800, 0)),
            (b"2017-January-1", at(536_500_800, 0)),
            (b"2017-1-1", at(536_500_800, 0)),
            (b"2017-01-01", at(536_500_800, 0)),
            (b"1-JAN-2017", at(536_500_800, 0)),
            (b"01-january-2017", at(536_500_800, 0)),
            (b"2017-001", at(536_500_800, 0)),
            (b"2000-FEB-29", at(5_054_400, 0)),
            (b"2000-366", at(31_492_800, 0)),
            (b"1800-JAN-1", at(-6_311_390_400, 0)),
            (b"2200-JAN-1", at(6_311_390_400, 0)),
            (b"2200-JAN-2", OUT_OF_RANGE),
            (b"1799-365", OUT_OF_RANGE),
            (b"0000-02-29", OUT_OF_RANGE),
            (b"0000-02-30", NO_DAY),
            (b"1800-FEB-29", NO_DAY),
            (b"31-APR-2001", NO_DAY),
            (b"2001-13-1", NO_DAY),
            (b"2001-0-1", NO_DAY),
            (b"2001-366", NO_DAY),
            (b"2001-000", NO_DAY),
            (b"", FORM),
            (b"2001-APR", FORM),
            (b"2001-APR-001", FORM),
            (b"2001-01", FORM),
            (b"2001-0001", FORM),
            (b"1-4-2001", FORM),
            (b" 2001-APR-1", FORM),
        ];
        for (text, answer) in table {
            assert_eq!(rt; read_at_date(text), answer);
        }
    }

    #[test]
    fn reads_times(rt: HostRuntime) {
        let table: [(&[u8], Result<i128, DateFault>); 22] = [
            (b"2000-01-01/12:00", at(0, 0)),
            (b"2000-01-01//12:00", at(0, 0)),
            (b"2000-001T12:0", at(0, 0)),
            (b"1-JAN-2000t12:0:0", at(0, 0)),
            (b"2000-JAN-1-12:00:00.000000000001", at(0, 1)),
            (b"2000-001-12:00:07.25", at(7, 250_000_000_000)),
            (b"2000-001T0:0", at(-43_200, 0)),
            (b"1999-12-31T23:59:59.5", at(-43_201, 500_000_000_000)),
            (b"2200-01-01T0:00:00.0", at(6_311_390_400, 0)),
            (b"2200-01-01T0:00:00.1", OUT_OF_RANGE),
            (b"2001-02-29T1:00", NO_DAY),
            (b"2000-001T24:00", FORM),
            (b"2000-001T1:60", FORM),
            (b"2016-12-31T23:59:60", FORM),
            (b"2000-001T1", FORM),
            (b"2000-001T1:2:3.", FORM),
            (b"2000-001T1:2:3.0000000000001", FORM),
            (b"2000-001T001:00", FORM),
            (b"2000-001 1:00", FORM),
            (b"2000-001///1:00", FORM),
            (b"2000-001T", FORM),
            (b"2001-02-29T1", FORM),
        ];
        for (text, answer) in table {
            assert_eq!(rt; read_at_date(text), answer);
        }
    }
}
