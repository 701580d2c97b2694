//! The data type and the time system of a clock.

ghost use Rattle.std.specs.Prelude.{◌≡◌, ◌↔◌, pos, Result, IsTrue, IfSome, IfNone};
ghost use Rattle.st_clock.specs.Parts.{GivesScale, IsNumber, IsSystem};
ghost use Rattle.st_scales.specs.declared.scale.Scale.{Scale as TheScale};
ghost use Rattle.st_ticks.specs.declared.variable.ClockFault.{ClockFault as TheFault};

use st_decimal::Dec;
use st_scales::Scale;
use st_ticks::{ClockFault, ClockVar, ClockWhy};

/// The scale of a clock's times, by the values of `SCLK_DATA_TYPE_n` and of `SCLK01_TIME_SYSTEM_n`, which is TDB where it is empty.
///
/// Source: NAIF's SCLK Required Reading.
///
/// # Errors
///
/// [`ClockFault`]: the first fault of the two variables.
pub fn check_system(data_type: &[Dec], time_system: &[Dec]) -> Result<Scale, ClockFault>
    ensures gives { GivesScale data_type.now time_system.now result }
    ensures only { (answer : Result TheScale TheFault) → GivesScale data_type.now time_system.now answer → result ≡ answer }
{
    judged(data_type, time_system)
}

/// The scale, or the first fault of the two variables.
fn judged(data_type: &[Dec], time_system: &[Dec]) -> Result<Scale, ClockFault>
    ensures { GivesScale data_type.now time_system.now result }
{
    if data_type.len() != 1 {
        return Err(fault(ClockVar::DataType, ClockWhy::NotOne));
    }
    if !is_one(data_type[0]) {
        return Err(fault(ClockVar::DataType, ClockWhy::Range));
    }
    if time_system.len() > 1 {
        return Err(fault(ClockVar::TimeSystem, ClockWhy::NotOne));
    }
    if time_system.is_empty() {
        return Ok(Scale::Tdb);
    }
    match scale_of(time_system[0]) {
        Some(scale) => Ok(scale),
        None => Err(fault(ClockVar::TimeSystem, ClockWhy::Range)),
    }
}

/// A fault of a variable.
pub fn fault(var: ClockVar, why: ClockWhy) -> ClockFault
    ensures { result ≡ record { var = var; why = why } }
{
    ClockFault { var, why }
}

/// Whether a decimal is 1.
fn is_one(d: Dec) -> bool
    ensures { IsTrue result ↔ IsNumber d (pos 1) }
{
    matches!(d.whole(), Some(1))
}

/// The scale of a time system's number.
fn scale_of(d: Dec) -> Option<Scale>
    ensures some { IfSome result (IsSystem d) }
    ensures none { IfNone result ((scale : TheScale) → IsSystem d scale → ⊥) }
{
    match d.whole() {
        Some(1) => Some(Scale::Tdb),
        Some(2) => Some(Scale::Tt),
        _ => None,
    }
}
