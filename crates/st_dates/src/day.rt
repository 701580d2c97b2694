//! The day numbers of dates.

ghost use Rattle.std.specs.Prelude.{◌≡◌, ◌≤◌, ◌↔◌, pos, ◌≤ℤ◌, unsigned_abs, IsSome, IfSome};
ghost use Rattle.st_dates.specs.Calendar.{day_number, number_in_year, IsCalendarDay, IsDayOfYear};
ghost use Rattle.st_dates.specs.CalendarMachine.{calendar_day, day_in_year};

use jiff::civil::Date;
use jiff_core::civil;

/// The days from 1970-01-01, from which `jiff` counts, to 2000-01-01.
pub(crate) const EPOCH: i32 = 10_957;

/// The days from 2000-01-01 to a date of the Gregorian calendar, or `None` where the calendar has
/// no such day. The year is from 0 to 9999.
pub fn day_of(year: i32, month: u32, day: u32) -> Option<i32>
    requires year_from { pos 0 ≤ℤ year }
    requires year_to { year ≤ℤ pos 9999 }
    ensures exact { result ≡ calendar_day (unsigned_abs year) month day }
    ensures some { IsSome result ↔ IsCalendarDay (unsigned_abs year) month day }
    ensures value { IfSome result (λ n. n ≡ day_number (unsigned_abs year) month day) }
{
    find_day(year, month, day)
}

fn find_day(year: i32, month: u32, day: u32) -> Option<i32>
    requires year_from { pos 0 ≤ℤ year }
    requires year_to { year ≤ℤ pos 9999 }
    ensures some { IsSome result ↔ IsCalendarDay (unsigned_abs year) month day }
    ensures value { IfSome result (λ n. n ≡ day_number (unsigned_abs year) month day) }
{
    if month > 12 || day > 31 {
        return None;
    }
    match Date::new(year as i16, month as i8, day as i8) {
        Ok(date) => Some(number_of(date.to_plain())),
        Err(_) => None,
    }
}

/// The days from 2000-01-01 to the day at a place of a year, from 1 for 1 January, or `None` where
/// the year has no such day. The year is from 0 to 9999.
pub fn day_of_doy(year: i32, doy: u32) -> Option<i32>
    requires year_from { pos 0 ≤ℤ year }
    requires year_to { year ≤ℤ pos 9999 }
    ensures exact { result ≡ day_in_year (unsigned_abs year) doy }
    ensures some { IsSome result ↔ IsDayOfYear (unsigned_abs year) doy }
    ensures value { IfSome result (λ n. n ≡ number_in_year (unsigned_abs year) doy) }
{
    find_day_of_year(year, doy)
}

fn find_day_of_year(year: i32, doy: u32) -> Option<i32>
    requires year_from { pos 0 ≤ℤ year }
    requires year_to { year ≤ℤ pos 9999 }
    ensures some { IsSome result ↔ IsDayOfYear (unsigned_abs year) doy }
    ensures value { IfSome result (λ n. n ≡ number_in_year (unsigned_abs year) doy) }
{
    if doy > 366 {
        return None;
    }
    match civil::Date::from_day_of_year(year as i16, doy as i16) {
        Ok(date) => Some(number_of(date)),
        Err(_) => None,
    }
}

fn number_of(date: civil::Date) -> i32
    requires { pos 0 ≤ℤ date.year }
    ensures { result ≡ day_number (unsigned_abs date.year) date.month date.day }
{
    date.to_unix_epoch_day() - EPOCH
}

#[cfg(test)]
mod tests {
    use super::*;

    #[test]
    fn numbers_days(rt: HostRuntime) {
        let table = [
            (2000, 1, 1, Some(0)),
            (1999, 12, 31, Some(-1)),
            (2000, 2, 29, Some(59)),
            (2017, 1, 1, Some(6210)),
            (1900, 1, 1, Some(-36_524)),
            (2100, 1, 1, Some(36_525)),
            (0, 1, 1, Some(-730_485)),
            (9999, 12, 31, Some(2_921_939)),
            (1900, 2, 29, None),
            (2001, 13, 1, None),
            (2001, 0, 1, None),
            (2001, 4, 31, None),
            (2001, 4, 4_294_967_295, None),
        ];
        for (year, month, day, number) in table {
            assert!(rt; 0 <= year && year <= 9999);
            assert_eq!(rt; day_of(year, month, day), number);
        }
        let places = [
            (2000, 1, Some(0)),
            (2000, 366, Some(365)),
            (2001, 365, Some(730)),
            (2001, 366, None),
            (2001, 0, None),
            (1900, 366, None),
            (0, 366, Some(-730_120)),
            (2001, 65_537, None),
        ];
        for (year, place, number) in places {
            assert!(rt; 0 <= year && year <= 9999);
            assert_eq!(rt; day_of_doy(year, place), number);
        }
    }
}
