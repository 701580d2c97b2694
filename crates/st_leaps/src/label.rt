//! The labels of UTC in TAI, both ways. The table is searched for days alone: the day of a TAI is
//! that of its formal label, the day before or the day after.

ghost use Rattle.std.specs.Prelude.{◌≡◌, ◌*◌, ◌^◌, neg_ℤ, pos, ◌+ℤ◌, ◌-ℤ◌, ◌*ℤ◌, ◌≤ℤ◌, ◌<ℤ◌, MatchResult};
ghost use Rattle.st_dates.specs.Label.{IsFormal, formal};
ghost use Rattle.st_dates.specs.declared.label.Label.{Label as TheLabel};
ghost use Rattle.st_fraction.specs.Fraction.{units};
ghost use Rattle.st_leaps.specs.Label as spec;
ghost use Rattle.st_leaps.specs.Label.{IsLabel, IsLabelOf, IsTai, in_units};
ghost use Rattle.st_leaps.specs.LabelMachine.{start_units};
ghost use Rattle.st_leaps.specs.Table as table;
ghost use Rattle.st_leaps.specs.Table.{IsLeapTable};

use crate::count::count_on;
use crate::fault::NoSuchSecond;
use crate::pair::LeapPair;
use st_dates::{Label, SECOND, formal_of, label_of};

/// TAI of a UTC label.
pub(crate) fn tai_of(pairs: &[LeapPair], label: Label) -> Result<i128, NoSuchSecond>
    requires table { IsLeapTable pairs.now }
    requires range { IsFormal (formal label) }
    ensures { MatchResult result
        (λ tai. IsLabelOf (table.count_on pairs.now) (units tai) (in_units label))
        (λ _. IsLabel (table.count_on pairs.now) (in_units label) → ⊥) }
{
    if label.of_day < 0 {
        return Err(NoSuchSecond);
    }
    let length = later_by(0, length_of(pairs, label.day));
    if label.of_day >= length {
        return Err(NoSuchSecond);
    }
    Ok(later_by(formal_of(label), count_on(pairs, label.day)))
}

/// The UTC label of a TAI.
pub(crate) fn utc_of(pairs: &[LeapPair], tai: i128) -> Label
    requires table { IsLeapTable pairs.now }
    requires range { IsTai tai }
    ensures is { IsLabelOf (table.count_on pairs.now) (units tai) (in_units result) }
    ensures only { (label : TheLabel)
        → IsLabelOf (table.count_on pairs.now) (units tai) (in_units label) → result ≡ label }
    ensures day_from { neg_ℤ (pos 73_050) ≤ℤ result.day }
    ensures day_to { result.day ≤ℤ pos 73_050 }
    ensures from { pos 0 ≤ℤ result.of_day }
    ensures to { result.of_day <ℤ pos (86_401 * 10 ^ 18) }
{
    let day = day_of(pairs, tai);
    Label {
        day,
        of_day: since(start_of(pairs, day), tai),
    }
}

/// The day whose label a TAI has.
fn day_of(pairs: &[LeapPair], tai: i128) -> i32
    requires table { IsLeapTable pairs.now }
    requires range { IsTai tai }
    ensures started { start_units (table.count_on pairs.now) result ≤ℤ tai }
    ensures not_ended { tai <ℤ start_units (table.count_on pairs.now) (result +ℤ pos 1) }
{
    let day = label_of(tai).day;
    if tai < start_of(pairs, day) {
        day - 1
    } else if tai < start_of(pairs, day + 1) {
        day
    } else {
        day + 1
    }
}

/// TAI at the start of a day, in units past J2000.
#[tactic(auto, unfolding(crate::specs::LabelMachine::start_units))]
fn start_of(pairs: &[LeapPair], day: i32) -> i128
    requires table { IsLeapTable pairs.now }
    requires from { neg_ℤ (pos 73_050) ≤ℤ day }
    requires to { day ≤ℤ pos 73_051 }
    ensures { result ≡ start_units (table.count_on pairs.now) day }
{
    later_by(formal_of(Label { day, of_day: 0 }), count_on(pairs, day))
}

/// How many seconds a day has.
fn length_of(pairs: &[LeapPair], day: i32) -> i64
    requires table { IsLeapTable pairs.now }
    requires to { day ≤ℤ pos 73_051 }
    ensures value { result ≡ spec.length_of (table.count_on pairs.now) day }
    ensures from { pos 0 ≤ℤ result }
    ensures to { result ≤ℤ pos 88_000 }
{
    86_400 + count_on(pairs, day + 1) - count_on(pairs, day)
}

/// A time in units of 10^-18 s, this many seconds later.
fn later_by(time: i128, seconds: i64) -> i128
    requires time_from { neg_ℤ (pos (10 ^ 30)) ≤ℤ time }
    requires time_to { time ≤ℤ pos (10 ^ 30) }
    requires from { neg_ℤ (pos 100_000) ≤ℤ seconds }
    requires to { seconds ≤ℤ pos 100_000 }
    ensures { result ≡ time +ℤ (seconds *ℤ pos 1_000_000_000_000_000_000) }
{
    time + seconds as i128 * SECOND
}

/// The units from a start to a time.
fn since(start: i128, time: i128) -> i128
    requires start_from { neg_ℤ (pos (10 ^ 30)) ≤ℤ start }
    requires start_to { start ≤ℤ pos (10 ^ 30) }
    requires time_from { neg_ℤ (pos (10 ^ 30)) ≤ℤ time }
    requires time_to { time ≤ℤ pos (10 ^ 30) }
    ensures { result ≡ time -ℤ start }
{
    time - start
}
