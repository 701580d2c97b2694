//! The parts of a day.

ghost use Rattle.std.specs.Prelude.{◌≡◌, pos, neg_ℤ, ◌≤ℤ◌};
ghost use Rattle.st_dates.specs.Civil.{IsCivil};
ghost use Rattle.st_dates.specs.declared.civil.Civil.{Civil as TheCivil};

use crate::day::EPOCH;
use jiff_core::civil::Date;

/// The day of `jiff_core`'s first date, -9999-01-01, counted back from 1970-01-01.
const FIRST_DATE: i32 = 4_371_587;

/// A day by its parts. The weekday is from 0 for Sunday to 6 for Saturday, and `doy` is the place
/// in the year, from 1 for 1 January.
#[derive(Clone, Copy, Debug, PartialEq, Eq, Hash)]
pub struct Civil {
    pub year: i32,
    pub month: u8,
    pub day: u8,
    pub doy: u16,
    pub weekday: u8,
}

/// The date, the place in its year and the weekday of a day that is counted from 2000-01-01.
///
/// Source: the Gregorian calendar.
///
/// The day is at most 73,200 in magnitude, about two hundred years to both sides.
pub fn civil_of(day: i32) -> Civil
    requires from { neg_ℤ (pos 73_200) ≤ℤ day }
    requires to { day ≤ℤ pos 73_200 }
    ensures civil { IsCivil day result }
    ensures only { (civil : TheCivil) → IsCivil day civil → result ≡ civil }
{
    parts_of(day)
}

/// The same by steps, which the public call's clauses are proved from.
fn parts_of(day: i32) -> Civil
    requires from { neg_ℤ (pos 73_200) ≤ℤ day }
    requires to { day ≤ℤ pos 73_200 }
    ensures { IsCivil day result }
{
    let date = Date::from_days_since_min((day + EPOCH + FIRST_DATE) as u32);
    Civil {
        year: i32::from(date.year),
        month: date.month,
        day: date.day,
        doy: date.day_of_year(),
        weekday: (date.weekday().index() + 1) % 7,
    }
}

#[cfg(test)]
mod tests {
    use super::*;

    #[test]
    fn parts_days(rt: HostRuntime) {
        let table = [
            (0, (2000, 1, 1, 1, 6)),
            (-1, (1999, 12, 31, 365, 5)),
            (60, (2000, 3, 1, 61, 3)),
            (6_210, (2017, 1, 1, 1, 0)),
            (-36_524, (1900, 1, 1, 1, 1)),
            (36_525, (2100, 1, 1, 1, 5)),
            (-73_200, (1799, 8, 2, 214, 5)),
            (73_200, (2200, 6, 1, 152, 0)),
        ];
        for (day, (year, month, of_month, doy, weekday)) in table {
            assert!(rt; -73_200 <= day && day <= 73_200);
            let civil = Civil {
                year,
                month,
                day: of_month,
                doy,
                weekday,
            };
            assert_eq!(rt; civil_of(day), civil);
        }
    }
}
