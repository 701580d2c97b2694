//! A clock's records, from the values of its coefficients.

ghost use Rattle.std.specs.Prelude.{◌≡◌, ◌↔◌, ◌+◌, ◌*◌, ◌%◌, ◌≤◌, ◌<◌, ◌⊎◌, ◌<ℤ◌, ℕ, ℤ, IsTrue, IfOk, IfErr, IfSome, IfNone, OnOk, [], ◌∷◌, ◌++◌, Ok, Err, Some, Result, length, slice_get};
ghost use Rattle.st_clock.specs.SmallSteps.{AreSmall};
ghost use Rattle.st_clock.specs.Parts.{EachThird, HasNumber, HasUnits, IsTick, IsTime, IsRate, AreRecords, KeepsCoefficients, GivesRecords, HaveSteps, fault};
ghost use Rattle.st_ticks.specs.declared.fault.FaceFault.TheVariants.{Bad, OutOfMemory as NoMemory};
ghost use Rattle.st_ticks.specs.declared.variable.ClockVar.TheVariants.{Coefficients};
ghost use Rattle.st_ticks.specs.declared.variable.ClockWhy.TheVariants.{Range};

use crate::coefficient::Coefficient;
use crate::number::{has_units, is_whole, rate_of, tick_of, time_of};
use st_decimal::{Dec, OutOfMemory};
use st_ticks::{ClockFault, ClockVar, ClockWhy, FaceFault};
use std::alloc::Global;

/// The records of a clock, or the first fault of their values.
pub fn read_records(alloc: Global, values: &[Dec]) -> Result<Vec<Coefficient>, FaceFault>
    ensures ok { IfOk result (λ records. GivesRecords values.now (Ok records.items)) }
    ensures err { IfErr result (λ e. GivesRecords values.now (Err e)) }
{
    if values.is_empty() {
        return Err(refusal(ClockWhy::Count));
    }
    if values.len() % 3 != 0 {
        return Err(refusal(ClockWhy::Count));
    }
    if !are_whole(values, 0) {
        return Err(refusal(ClockWhy::NotWhole));
    }
    if !have_units(values, 1) {
        return Err(refusal(ClockWhy::NotUnits));
    }
    if !have_units(values, 2) {
        return Err(refusal(ClockWhy::NotUnits));
    }
    let records = gather(alloc, values)?;
    if are_rising(records.as_slice()) {
        Ok(records)
    } else {
        Err(refusal(ClockWhy::NotRising))
    }
}

/// The refusal of the coefficients.
fn refusal(why: ClockWhy) -> FaceFault
    ensures { result ≡ Bad (fault Coefficients why) }
{
    FaceFault::Bad(ClockFault {
        var: ClockVar::Coefficients,
        why,
    })
}

/// Whether each value at a place of three is a whole number.
fn are_whole(values: &[Dec], place: usize) -> bool
    requires thirds { length values.now % 3 ≡ 0 }
    requires place { place < 3 }
    ensures { IsTrue result ↔ EachThird place values.now HasNumber }
{
    for i in 0..values.len() / 3 {
        if !is_whole(values[3 * i + place]) {
            return false;
        }
    }
    true
}

/// Whether each value at a place of three is a count of units.
fn have_units(values: &[Dec], place: usize) -> bool
    requires thirds { length values.now % 3 ≡ 0 }
    requires place { place < 3 }
    ensures { IsTrue result ↔ EachThird place values.now HasUnits }
{
    for i in 0..values.len() / 3 {
        if !has_units(values[3 * i + place]) {
            return false;
        }
    }
    true
}

/// The record of three values, where each is within its limits.
fn record_of(tick: Dec, time: Dec, rate: Dec) -> Option<Coefficient>
    ensures tick { IfSome result (λ r. IsTick tick r.ticks) }
    ensures time { IfSome result (λ r. IsTime time r.time) }
    ensures rate { IfSome result (λ r. IsRate rate r.rate) }
    ensures none { IfNone result (((n : ℕ) × IsTick tick n) → ((u : ℤ) × IsTime time u) → ((n : ℕ) × IsRate rate n) → ⊥) }
{
    let Some(ticks) = tick_of(tick) else {
        return None;
    };
    let Some(time) = time_of(time) else {
        return None;
    };
    let Some(rate) = rate_of(rate) else {
        return None;
    };
    Some(Coefficient { ticks, time, rate })
}

/// The records, where each value is within its limits.
fn gather(alloc: Global, values: &[Dec]) -> Result<Vec<Coefficient>, FaceFault>
    requires { length values.now % 3 ≡ 0 }
    ensures ok { IfOk result (λ records. AreRecords values.now records.items) }
    ensures err { IfErr result (λ e. (e ≡ NoMemory) ⊎ ((e ≡ Bad (fault Coefficients Range)) × (KeepsCoefficients values.now Range → ⊥))) }
{
    let mut records = Vec::new(alloc);
    for i in 0..values.len() / 3 {
        let Some(r) = record_of(values[3 * i], values[3 * i + 1], values[3 * i + 2]) else {
            return Err(refusal(ClockWhy::Range));
        };
        append(&mut records, r)?;
    }
    Ok(records)
}

/// One record more.
fn append(records: &mut Vec<Coefficient>, r: Coefficient) -> Result<(), OutOfMemory>
    ensures { OnOk result (records.new.items ≡ records.old.items ++ r ∷ []) }
{
    records.push(r)?;
    Ok(())
}

/// Whether each record's tick and time are before the next one's.
fn are_rising(records: &[Coefficient]) -> bool
    requires { AreSmall records.now }
    ensures { IsTrue result ↔ HaveSteps records.now }
{
    for i in 0..records.len().saturating_sub(1) {
        let (r, next) = (records[i], records[i + 1]);
        if !is_before(r.ticks, r.time, next.ticks, next.time) {
            return false;
        }
    }
    true
}

/// Whether a tick and a time are both before later ones.
fn is_before(ticks: u64, time: i128, later_ticks: u64, later_time: i128) -> bool
    ensures { IsTrue result ↔ ((ticks < later_ticks) × (time <ℤ later_time)) }
{
    ticks < later_ticks && time < later_time
}
