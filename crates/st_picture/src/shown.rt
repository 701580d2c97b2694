//! What the marks of a picture print of a cell.

ghost use Rattle.std.specs.Prelude.{◌≡◌, ◌≤◌};
ghost use Rattle.st_dates.specs.Civil.{IsCivil};
ghost use Rattle.st_picture.specs.CellShown.{IsCellShown, IsCivilDay, IsOfDay};
ghost use Rattle.st_picture.specs.Named.{IsNamed};
ghost use Rattle.st_picture.specs.Text.{IsTimeOfDay, Shows};

use crate::cell::Cell;
use st_dates::{Civil, civil_of};

/// What marks print of a cell: a date, a time of day, with the seconds in units of 10^-18 s, or a
/// count. What a cell doesn't have is anything.
#[derive(Clone, Copy, Debug)]
pub(crate) struct Shown {
    pub civil: Civil,
    pub hour: u32,
    pub minute: u32,
    pub second: u128,
    pub count: i128,
}

const MINUTE: u128 = 60_000_000_000_000_000_000;

/// The last minute of a day, also where seconds follow 23:59:59.
const LAST_MINUTE: u128 = 1_439;

/// What is shown of a cell.
pub(crate) fn shown_of(cell: Cell) -> Shown
    requires { IsCellShown cell }
    ensures shows { Shows cell result }
    ensures named { IsNamed result }
{
    match cell {
        Cell::Count(count) => counted(count),
        Cell::Day { day, of_day } => of_label(day, of_day),
        Cell::Month { year, month } => of_month(year, month),
        Cell::Year(year) => of_month(year, 1),
    }
}

fn counted(count: i128) -> Shown
    ensures count { result.count ≡ count }
    ensures named { IsNamed result }
{
    Shown {
        civil: first_of(2000, 1),
        hour: 0,
        minute: 0,
        second: 0,
        count,
    }
}

fn of_month(year: i32, month: u8) -> Shown
    requires from { 1 ≤ month }
    requires to { month ≤ 12 }
    ensures year { result.civil.year ≡ year }
    ensures month { result.civil.month ≡ month }
    ensures named { IsNamed result }
{
    Shown {
        civil: first_of(year, month),
        hour: 0,
        minute: 0,
        second: 0,
        count: 0,
    }
}

fn first_of(year: i32, month: u8) -> Civil
    ensures year { result.year ≡ year }
    ensures month { result.month ≡ month }
    ensures weekday { result.weekday ≡ 0 }
{
    Civil {
        year,
        month,
        day: 1,
        doy: 1,
        weekday: 0,
    }
}

fn of_label(day: i32, of_day: i128) -> Shown
    requires day { IsCivilDay day }
    requires of_day { IsOfDay of_day }
    ensures civil { IsCivil day result.civil }
    ensures time { IsTimeOfDay of_day result }
    ensures named { IsNamed result }
{
    let units = of_day.unsigned_abs();
    let minutes = (units / MINUTE).min(LAST_MINUTE);
    Shown {
        civil: civil_of(day),
        hour: (minutes / 60) as u32,
        minute: (minutes % 60) as u32,
        second: units - minutes * MINUTE,
        count: 0,
    }
}
