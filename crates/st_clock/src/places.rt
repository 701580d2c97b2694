//! Which record is in force, found by halves.

ghost use Rattle.std.specs.Prelude.{◌≡◌, ℕ, ◌+◌, ◌-◌, ◌≤◌, ◌<◌, ◌≤ℤ◌, ◌<ℤ◌, length, int_le, nat_le, slice_get, Some, IfSome, IfNone};
ghost use Rattle.st_fraction.specs.Fraction.{◌<ᶠ◌, units};
ghost use Rattle.st_clock.specs.Clock.{AreRising, BeginsBy, StartsBy};
ghost use Rattle.st_clock.specs.InForceSteps.{IsInForce};
ghost use Rattle.st_clock.specs.declared.coefficient.Coefficient.{Coefficient as Record};

use crate::coefficient::Coefficient;

/// The record in force at a tick or a time, and the one after it.
#[derive(Clone, Copy)]
pub struct InForce {
    pub record: Coefficient,
    pub next: Option<Coefficient>,
}

/// The last record that begins at a time or before it.
pub fn at_time(records: &[Coefficient], time: i128) -> Option<InForce>
    requires { AreRising records.now }
    ensures some { IfSome result (λ f. IsInForce (BeginsBy (units time)) records.now f.record f.next) }
    ensures none { IfNone result ((i : ℕ) (r : Record) → slice_get records.now i ≡ Some r → units time <ᶠ units r.time) }
{
    last_of(records, begun(records, time))
}

/// The last record that starts at a tick or before it.
pub fn at_tick(records: &[Coefficient], ticks: u64) -> Option<InForce>
    requires { AreRising records.now }
    ensures some { IfSome result (λ f. IsInForce (StartsBy ticks) records.now f.record f.next) }
    ensures none { IfNone result ((i : ℕ) (r : Record) → slice_get records.now i ≡ Some r → ticks < r.ticks) }
{
    last_of(records, started(records, ticks))
}

/// How many records begin at a time or before it.
fn begun(records: &[Coefficient], time: i128) -> usize
    requires { AreRising records.now }
    ensures bound { result ≤ length records.now }
    ensures before { (i : ℕ) (r : Record) → i < result → slice_get records.now i ≡ Some r → r.time ≤ℤ time }
    ensures after { (i : ℕ) (r : Record) → result ≤ i → slice_get records.now i ≡ Some r → time <ℤ r.time }
{
    records.partition_point(
        |r: &Coefficient| -> bool
            ensures { result ≡ int_le r.now.time time }
        { r.time <= time },
    )
}

/// How many records start at a tick or before it.
fn started(records: &[Coefficient], ticks: u64) -> usize
    requires { AreRising records.now }
    ensures bound { result ≤ length records.now }
    ensures before { (i : ℕ) (r : Record) → i < result → slice_get records.now i ≡ Some r → r.ticks ≤ ticks }
    ensures after { (i : ℕ) (r : Record) → result ≤ i → slice_get records.now i ≡ Some r → ticks < r.ticks }
{
    records.partition_point(
        |r: &Coefficient| -> bool
            ensures { result ≡ nat_le r.now.ticks ticks }
        { r.ticks <= ticks },
    )
}

/// The last of the first `count` records, of which there are so many, and the one after it.
fn last_of(records: &[Coefficient], count: usize) -> Option<InForce>
    requires { count ≤ length records.now }
    ensures none { IfNone result (count ≡ 0) }
    ensures some { IfSome result (λ f. 0 < count) }
    ensures here { IfSome result (λ f. slice_get records.now (count - 1) ≡ Some f.record) }
    ensures next { IfSome result (λ f. f.next ≡ slice_get records.now count) }
{
    if count == 0 {
        return None;
    }
    Some(InForce {
        record: records[count - 1],
        next: record_at(records, count),
    })
}

/// The record at a place, where there is one.
fn record_at(records: &[Coefficient], place: usize) -> Option<Coefficient>
    ensures { result ≡ slice_get records.now place }
{
    records.get(place).copied()
}
