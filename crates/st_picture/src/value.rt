//! The cell of a value: the value truncated downwards to a unit.

ghost use Rattle.std.specs.Prelude.{◌≡◌, ◌*◌, ◌^◌, ◌-◌, ◌/◌, ◌≤◌, neg_ℤ, pos, ◌+ℤ◌, ◌*ℤ◌, ◌≤ℤ◌, ◌<ℤ◌, option_map};
ghost use Rattle.std.specs.Int.{int_div_euclid};
ghost use Rattle.st_fraction.specs.Fraction.{◌≈ᶠ◌, units};
ghost use Rattle.st_leaps.specs.Label.{IsLabelOf, even_days, in_units};
ghost use Rattle.st_picture.specs.Cell.{IsCell, IsCellOfLabel, IsPrintable, IsTruncatedCell, IsUnit, capped, days_of, half_unit};
ghost use Rattle.st_picture.specs.CellMachine.{IsShifted};
ghost use Rattle.st_picture.specs.CellShown.{IsCellShown, IsCivilDay, IsOfDay};
ghost use Rattle.st_picture.specs.declared.unit.LeastUnit.TheVariants as the;

use crate::cell::Cell;
use crate::unit::LeastUnit;
use st_dates::{Label, SECOND, civil_of, label_of};
use st_leaps::LeapTable;

const MINUTE: i128 = 60 * SECOND;

const HOUR: i128 = 3_600 * SECOND;

/// The seconds of a day of 86,400 s.
const DAY_SECONDS: i128 = 86_400;

/// The Julian date 0 before J2000, in units of 10^-18 s.
const JULIAN_EPOCH: i128 = 2_451_545 * DAY_SECONDS * SECOND;

/// The cell of a value by a unit, rounded or not. Where there is a table, the value is TAI and the
/// cell is UTC's.
pub(crate) fn cell_of(unit: LeastUnit, rounds: bool, leaps: Option<&LeapTable>, value: i128) -> Cell
    requires unit { IsUnit unit }
    requires range { IsPrintable value }
    ensures shown { IsCellShown result }
    ensures cell { IsCell unit rounds (days_of (option_map (λ t. t.now) leaps.entry)) (units value) result }
{
    if rounds {
        truncated(unit, leaps, value + half_of(unit))
    } else {
        truncated(unit, leaps, value)
    }
}

/// The cell of a value, taken downwards.
fn truncated(unit: LeastUnit, leaps: Option<&LeapTable>, value: i128) -> Cell
    requires unit { IsUnit unit }
    requires range { IsShifted value }
    ensures shown { IsCellShown result }
    ensures cell { IsTruncatedCell unit (days_of (option_map (λ t. t.now) leaps.entry)) (units value) result }
{
    match unit {
        LeastUnit::Count(places) => count_cell(value, places),
        LeastUnit::Julian(places) => julian_cell(value, places),
        LeastUnit::Second(places) => second_cell(label_at(leaps, value), places),
        LeastUnit::Minute => minute_cell(label_at(leaps, value)),
        LeastUnit::Hour => hour_cell(label_at(leaps, value)),
        LeastUnit::Day => day_cell(label_at(leaps, value)),
        LeastUnit::Month => month_cell(label_at(leaps, value)),
        LeastUnit::Year => year_cell(label_at(leaps, value)),
    }
}

/// The cell of a count of seconds.
fn count_cell(value: i128, places: u32) -> Cell
    requires places { places ≤ 9 }
    requires range { IsShifted value }
    ensures shown { IsCellShown result }
    ensures cell { IsTruncatedCell (the.Count places) even_days (units value) result }
{
    Cell::Count(quotient(value, step_of(places)))
}

/// The cell of a Julian date.
fn julian_cell(value: i128, places: u32) -> Cell
    requires places { places ≤ 9 }
    requires range { IsShifted value }
    ensures shown { IsCellShown result }
    ensures cell { IsTruncatedCell (the.Julian places) even_days (units value) result }
{
    let since_zero = value + JULIAN_EPOCH;
    Cell::Count(quotient(since_zero, DAY_SECONDS * step_of(places)))
}

/// The label of a value: of UTC where there is a table, else on days of 86,400 s.
fn label_at(leaps: Option<&LeapTable>, value: i128) -> Label
    requires { IsShifted value }
    ensures is { IsLabelOf (days_of (option_map (λ t. t.now) leaps.entry)) (units value) (in_units result) }
    ensures day { IsCivilDay result.day }
    ensures second { IsOfDay result.of_day }
{
    match leaps {
        Some(table) => table.utc_of(value),
        None => label_of(value),
    }
}

/// The cell of a second, or of a part of one.
fn second_cell(label: Label, places: u32) -> Cell
    requires places { places ≤ 9 }
    requires day { IsCivilDay label.day }
    requires second { IsOfDay label.of_day }
    ensures shown { IsCellShown result }
    ensures cell { IsCellOfLabel (the.Second places) (in_units label) result }
{
    Cell::Day {
        day: label.day,
        of_day: cut(label.of_day, step_of(places)),
    }
}

fn minute_cell(label: Label) -> Cell
    requires day { IsCivilDay label.day }
    requires second { IsOfDay label.of_day }
    ensures shown { IsCellShown result }
    ensures cell { IsCellOfLabel the.Minute (in_units label) result }
{
    Cell::Day {
        day: label.day,
        of_day: at_most(86_340 * SECOND, cut(label.of_day, MINUTE)),
    }
}

fn hour_cell(label: Label) -> Cell
    requires day { IsCivilDay label.day }
    requires second { IsOfDay label.of_day }
    ensures shown { IsCellShown result }
    ensures cell { IsCellOfLabel the.Hour (in_units label) result }
{
    Cell::Day {
        day: label.day,
        of_day: at_most(82_800 * SECOND, cut(label.of_day, HOUR)),
    }
}

fn day_cell(label: Label) -> Cell
    requires { IsCivilDay label.day }
    ensures shown { IsCellShown result }
    ensures cell { IsCellOfLabel the.Day (in_units label) result }
{
    Cell::Day {
        day: label.day,
        of_day: 0,
    }
}

fn month_cell(label: Label) -> Cell
    requires { IsCivilDay label.day }
    ensures shown { IsCellShown result }
    ensures cell { IsCellOfLabel the.Month (in_units label) result }
{
    let civil = civil_of(label.day);
    Cell::Month {
        year: civil.year,
        month: civil.month,
    }
}

fn year_cell(label: Label) -> Cell
    requires { IsCivilDay label.day }
    ensures shown { IsCellShown result }
    ensures cell { IsCellOfLabel the.Year (in_units label) result }
{
    Cell::Year(civil_of(label.day).year)
}

/// The units of 10^-18 of a decimal at a place.
fn step_of(places: u32) -> i128
    requires { places ≤ 9 }
    ensures value { result ≡ pos (10 ^ (18 - places)) }
    ensures from { pos 1 ≤ℤ result }
    ensures to { result ≤ℤ pos 1_000_000_000_000_000_000 }
{
    10u128.pow(18 - places) as i128
}

/// Half of a unit, in units of 10^-18 s. A month and a year are never halved.
fn half_of(unit: LeastUnit) -> i128
    requires { IsUnit unit }
    ensures half { half_unit unit ≈ᶠ units result }
    ensures from { pos 0 ≤ℤ result }
    ensures to { result ≤ℤ pos 43_200_000_000_000_000_000_000 }
{
    match unit {
        LeastUnit::Second(places) => half_step(1, places),
        LeastUnit::Count(places) => half_step(1, places),
        LeastUnit::Julian(places) => half_step(86_400, places),
        LeastUnit::Minute => 30 * SECOND,
        LeastUnit::Hour => 1_800 * SECOND,
        LeastUnit::Day => 43_200 * SECOND,
        LeastUnit::Month | LeastUnit::Year => 0,
    }
}

/// Half of a decimal at a place, as often as said.
fn half_step(times: u32, places: u32) -> i128
    requires times { times ≤ 86_400 }
    requires places { places ≤ 9 }
    ensures value { result ≡ pos (times * (10 ^ (18 - places) / 2)) }
    ensures to { result ≤ℤ pos (times * 500_000_000_000_000_000) }
{
    (times as u128 * (10u128.pow(18 - places) / 2)) as i128
}

/// How often a step goes into a value.
fn quotient(value: i128, step: i128) -> i128
    requires value_from { neg_ℤ (pos (10 ^ 36)) ≤ℤ value }
    requires value_to { value ≤ℤ pos (10 ^ 36) }
    requires step { pos 1 ≤ℤ step }
    ensures { result ≡ int_div_euclid value step }
{
    value.div_euclid(step)
}

/// The greatest multiple of a step that is at most some units of a day.
fn cut(units: i128, step: i128) -> i128
    requires units { IsOfDay units }
    requires from { pos 1 ≤ℤ step }
    requires to { step ≤ℤ pos (10 ^ 22) }
    ensures value { result ≡ int_div_euclid units step *ℤ step }
    ensures within { IsOfDay result }
{
    quotient(units, step) * step
}

/// At most the cap, which is none below 0.
fn at_most(cap: i128, units: i128) -> i128
    requires cap { pos 0 ≤ℤ cap }
    requires units { IsOfDay units }
    ensures value { result ≡ capped cap units }
    ensures within { IsOfDay result }
{
    if units <= cap { units } else { cap }
}
