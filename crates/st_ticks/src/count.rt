//! What the fields of a clock string count.

ghost use Rattle.std.specs.Prelude.{◌≡◌, ◌≤◌, ◌<◌, ◌*◌, ◌^◌, length, IsTrue};
ghost use Rattle.std.specs.List.{All};
ghost use Rattle.st_ticks.specs.Face.{IsField, span, span_of_rest};
ghost use Rattle.st_ticks.specs.Reading as reading;
ghost use Rattle.st_ticks.specs.ReadingMachine as machine;

use crate::field::Field;

/// The greatest value of a field that is taken.
const MOST_VALUE: u64 = 2_000_000_000_000_000_000;

/// Whether no value is less than the offset of its field.
pub fn are_from_offsets(fields: &[Field], values: &[u64]) -> bool
    requires { length values.now ≤ length fields.now }
    ensures { result ≡ machine.from_offsets fields.now values.now }
{
    for (i, value) in values.iter().enumerate() {
        if *value < fields[i].offset {
            return false;
        }
    }
    true
}

/// Whether no value is greater than what is taken.
pub fn are_small(values: &[u64]) -> bool
    ensures { result ≡ machine.are_small values.now }
{
    values.iter().all(|value| *value <= MOST_VALUE)
}

/// The count of the values of fields. Fields that are missing at the right have their offsets.
pub fn count_of(fields: &[Field], ticks_per_count: u64, values: &[u64]) -> u128
    requires some { 1 ≤ length fields.now }
    requires few { length fields.now ≤ 10 }
    requires values { length values.now ≤ length fields.now }
    requires fields { All IsField fields.now }
    requires tpm { ticks_per_count ≡ span_of_rest fields.now }
    requires tpm_small { ticks_per_count ≤ 10 ^ 12 }
    requires from_offsets { IsTrue (machine.from_offsets fields.now values.now) }
    requires small { IsTrue (machine.are_small values.now) }
    ensures { result ≡ reading.count_of fields.now values.now }
{
    let mut span = u128::from(ticks_per_count) * u128::from(fields[0].modulus);
    let mut count = 0;
    for (i, value) in values.iter().enumerate() {
        span /= u128::from(fields[i].modulus);
        count += u128::from(*value - fields[i].offset) * span;
    }
    count
}
