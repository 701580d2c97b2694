//! A variable's numbers as constants, in units.

ghost use Rattle.std.specs.Prelude.{◌≡◌, ◌^◌, ◌<◌, ℤ, ◌≤ℤ◌, ◌↔◌, IsTrue, IsNone, IfSome, IfOk, IfErr, unsigned_abs};
ghost use Rattle.st_scales.specs.Constants.{IsUnits, IsInRange, IsOne, AreTwo, IsFirstBroken, rules_of_one, rules_of_m};
ghost use Rattle.st_scales.specs.ConstantsMachine.{KeepsOne, KeepsM};
ghost use Rattle.st_scales.specs.declared.fault.DeltetVar.TheVariants.{M0 as FirstOfM, M1 as SecondOfM};

use crate::fault::{DeltetFault, DeltetVar};
use st_decimal::Dec;

/// The greatest magnitude of `M0`, 10 rad.
const MOST_M0: i128 = 10_000_000_000_000_000_000;

/// The greatest `M1`, 4·10^-7 rad/s.
const MOST_M1: i128 = 400_000_000_000;

/// The one number of a variable, in units, from `low` to `high`.
pub(crate) fn constant(
    numbers: &[Dec],
    variable: DeltetVar,
    low: i128,
    high: i128,
) -> Result<i128, DeltetFault>
    requires low { unsigned_abs low < 10 ^ 38 }
    requires high { unsigned_abs high < 10 ^ 38 }
    ensures ok { IfOk result (λ u. IsOne numbers.now u × (low ≤ℤ u) × (u ≤ℤ high)) }
    ensures err { IfErr result (λ fault. IsFirstBroken (KeepsOne low high numbers.now) (rules_of_one variable) fault) }
{
    if numbers.len() != 1 {
        return Err(DeltetFault::Count(variable));
    }
    let number = numbers[0];
    if !is_units(number) {
        return Err(DeltetFault::NotUnits(variable));
    }
    match within(number, low, high) {
        Some(units) => Ok(units),
        None => Err(DeltetFault::Range(variable)),
    }
}

/// The two numbers of `DELTET/M`, in units.
pub(crate) fn anomaly(numbers: &[Dec]) -> Result<(i128, i128), DeltetFault>
    ensures ok { IfOk result (λ m. AreTwo numbers.now m.0 m.1 × IsInRange FirstOfM m.0 × IsInRange SecondOfM m.1) }
    ensures err { IfErr result (IsFirstBroken (KeepsM numbers.now) rules_of_m) }
{
    if numbers.len() != 2 {
        return Err(DeltetFault::Count(DeltetVar::M));
    }
    let first = numbers[0];
    let second = numbers[1];
    if !is_units(first) {
        return Err(DeltetFault::NotUnits(DeltetVar::M0));
    }
    if !is_units(second) {
        return Err(DeltetFault::NotUnits(DeltetVar::M1));
    }
    match (within(first, -MOST_M0, MOST_M0), within(second, 0, MOST_M1)) {
        (Some(m0), Some(m1)) => Ok((m0, m1)),
        (Some(_), None) => Err(DeltetFault::Range(DeltetVar::M1)),
        (None, _) => Err(DeltetFault::Range(DeltetVar::M0)),
    }
}

/// Whether a number is a whole number of units, however large.
fn is_units(number: Dec) -> bool
    ensures { IsTrue result ↔ ((u : ℤ) × IsUnits number u) }
{
    if number.tens >= -18 {
        return true;
    }
    number.units18().is_some()
}

/// A number in units, where these are a whole number from `low` to `high`.
fn within(number: Dec, low: i128, high: i128) -> Option<i128>
    requires low { unsigned_abs low < 10 ^ 38 }
    requires high { unsigned_abs high < 10 ^ 38 }
    ensures some { IfSome result (λ u. IsUnits number u × (low ≤ℤ u) × (u ≤ℤ high)) }
    ensures none { IsNone result → (u : ℤ) → IsUnits number u → low ≤ℤ u → u ≤ℤ high → ⊥ }
{
    let units = number.units18()?;
    if units < low {
        return None;
    }
    if units > high {
        return None;
    }
    Some(units)
}
