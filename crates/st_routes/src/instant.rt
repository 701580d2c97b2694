//! The instant of a time text.

ghost use Rattle.std.specs.Prelude.{◌≡◌, ◌≢◌, ℤ, Result, IfOk, IfErr, IsSome, MatchResult, option_map};
ghost use Rattle.st_fraction.specs.Fraction.{units};
ghost use Rattle.st_dates.specs.Range.{LiesInRange};
ghost use Rattle.st_dates.specs.declared.system.System.TheVariants.{Utc};
ghost use Rattle.st_forms.specs.Reading.{IsGood};
ghost use Rattle.st_forms.specs.declared.time.TimeText.TheVariants.{Label as OfLabel};
ghost use Rattle.st_leaps.specs.Label.{IsLabel, IsLabelOf, even_days, in_units};
ghost use Rattle.st_leaps.specs.OfTable.{count_of};
ghost use Rattle.st_routes.specs.Route.{IsSource};
ghost use Rattle.st_routes.specs.Source.{InstantGives, IsInstant, HasNoSecond};
ghost use Rattle.st_routes.specs.declared.fault.TimeFault.TheVariants.{NoSuchSecond as NoSecond};
ghost use Rattle.st_routes.specs.declared.fault.TimeFault.{TimeFault as Fault};

use crate::fault::TimeFault;
use st_dates::{DAY, Label, System, formal_of};
use st_forms::laws::one_answer;
use st_forms::{Form, TimeText, read_time};
use st_leaps::laws::each_table_counts;
use st_leaps::{LeapTable, NoSuchSecond};

/// The instant of a time text of a system, in units of 10^-18 s past J2000; for UTC it is TAI, and `leaps` tells its days.
///
/// The forms are those of [`read_time`]. The system is none of a spacecraft's clock.
///
/// # Errors
///
/// `BadTime`, `WrongSystem`, `NoSuchDay` and `OutOfRange` as [`read_time`] gives them, and then `NoSuchSecond`: the seconds are
/// 60 in another minute than 23:59, or the day hasn't that second. Days of other systems than UTC have 86,400 s.
pub fn read_instant(
    text: &[u8],
    system: System,
    form: Form,
    leaps: Option<&LeapTable>,
) -> Result<i128, TimeFault>
    requires system { system ≢ System.Sclk }
    requires leaps { system ≡ Utc → IsSome leaps }
    ensures gives { InstantGives system form (option_map (λ t. t.now) leaps.entry) text.now result }
    // No other answer meets it.
    ensures only { (answer : Result ℤ Fault)
        → InstantGives system form (option_map (λ t. t.now) leaps.entry) text.now answer → result ≡ answer }
    ensures range { IfOk result IsSource }
{
    // A text has one reading, and so no other answer meets the first clause.
    one_answer();
    find_instant(text, system, form, leaps)
}

fn find_instant(
    text: &[u8],
    system: System,
    form: Form,
    leaps: Option<&LeapTable>,
) -> Result<i128, TimeFault>
    requires system { system ≢ System.Sclk }
    requires leaps { system ≡ Utc → IsSome leaps }
    ensures gives { InstantGives system form (option_map (λ t. t.now) leaps.entry) text.now result }
    ensures range { IfOk result IsSource }
{
    match read_time(text, system, form)? {
        TimeText::Label(label) => instant_of(label, system, leaps),
        TimeText::Instant(instant) => Ok(instant),
        TimeText::NoSecond => Err(TimeFault::NoSuchSecond),
    }
}

/// The instant of a label of a system.
fn instant_of(label: Label, system: System, leaps: Option<&LeapTable>) -> Result<i128, TimeFault>
    requires leaps { system ≡ Utc → IsSome leaps }
    requires good { IsGood (OfLabel label) }
    ensures has { IfOk result (IsInstant system (option_map (λ t. t.now) leaps.entry) (OfLabel label)) }
    ensures has_not { IfErr result (λ fault. (fault ≡ NoSecond) × HasNoSecond system (option_map (λ t. t.now) leaps.entry) (OfLabel label)) }
    ensures range { IfOk result IsSource }
{
    let found = match (system, leaps) {
        (System::Utc, Some(table)) => utc_instant(label, table),
        _ => even_instant(label),
    };
    match found {
        Ok(instant) => Ok(instant),
        Err(NoSuchSecond) => Err(TimeFault::NoSuchSecond),
    }
}

/// TAI of a UTC label, which is near its formal count.
fn utc_instant(label: Label, table: &LeapTable) -> Result<i128, NoSuchSecond>
    requires { LiesInRange label }
    ensures label { MatchResult result
        (λ tai. IsLabelOf (count_of table.now) (units tai) (in_units label))
        (λ _. IsLabel (count_of table.now) (in_units label) → ⊥) }
    ensures range { IfOk result IsSource }
{
    each_table_counts();
    table.tai_of(label)
}

/// The instant of a label whose day has 86,400 s: its formal count.
fn even_instant(label: Label) -> Result<i128, NoSuchSecond>
    requires { LiesInRange label }
    ensures label { MatchResult result
        (λ instant. IsLabelOf even_days (units instant) (in_units label))
        (λ _. IsLabel even_days (in_units label) → ⊥) }
    ensures range { IfOk result IsSource }
{
    if label.of_day < 0 || label.of_day >= DAY {
        return Err(NoSuchSecond);
    }
    Ok(formal_of(label))
}
