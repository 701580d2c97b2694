//! The time of a tick on a record's line.

ghost use Rattle.std.specs.Prelude.{◌≡◌, ℕ, ◌+◌, ◌*◌, ◌/◌, ◌%◌, ◌^◌, ◌≤◌, ◌<◌, ◌↔◌, pos, ◌+ℤ◌, IsTrue, IfSome, IfNone, unsigned_abs};
ghost use Rattle.st_fraction.specs.Fraction.{◌<ᶠ◌, ◌≈ᶠ◌, over, units, ◌+ᶠ◌};
ghost use Rattle.st_dates.specs.Range.{range_end};
ghost use Rattle.st_clock.specs.Clock.{line_time as time_on};
ghost use Rattle.st_clock.specs.SmallSteps.{IsSmall};
ghost use Rattle.st_clock.specs.Time.{value_of, IsInRange};

use crate::coefficient::Coefficient;
use crate::point::Point;
use st_dates::{FIRST, LAST};

/// More units than lie between any record's time and the end of the range.
const FAR: u128 = 1_000_000_000_000_000_000_000_000_000_000;

/// The time of a tick on a record's line, from the record's tick on; none where that is after the range of times.
pub fn line_time(tpm: u64, r: Coefficient, ticks: u64) -> Option<Point>
    requires tpm_some { 0 < tpm }
    requires tpm_small { tpm ≤ 10 ^ 12 }
    requires rate { 0 < r.rate }
    requires record_small { IsSmall r }
    requires started { r.ticks ≤ ticks }
    ensures some { IfSome result (λ p. value_of p ≈ᶠ time_on tpm r ticks) }
    ensures of { IfSome result (λ p. p.of ≡ tpm) }
    ensures part { IfSome result (λ p. p.part < p.of) }
    ensures small { IfSome result (λ p. unsigned_abs p.units ≤ 10 ^ 36) }
    ensures none { IfNone result (units range_end <ᶠ time_on tpm r ticks) }
{
    let since = ticks - r.ticks;
    let counts = u128::from(since / tpm);
    if counts > FAR / r.rate {
        return None;
    }
    let part = u128::from(since % tpm) * r.rate;
    Some(point(r.time, counts * r.rate, part, tpm))
}

/// What is `elapsed + part / of` units after a time.
fn point(time: i128, elapsed: u128, part: u128, of: u64) -> Point
    requires of_some { 0 < of }
    requires time_small { unsigned_abs time ≤ 10 ^ 28 }
    requires elapsed_small { elapsed ≤ 10 ^ 30 }
    requires part_small { part ≤ 10 ^ 35 }
    ensures units { result.units ≡ time +ℤ pos (elapsed + part / of) }
    ensures part { result.part ≡ part % of }
    ensures of { result.of ≡ of }
    ensures small { unsigned_abs result.units ≤ 10 ^ 36 }
{
    let count = u128::from(of);
    Point {
        units: time + (elapsed + part / count) as i128,
        part: (part % count) as u64,
        of,
    }
}

/// Whether a count of units and a part of a unit lie in the range of times.
pub fn is_in_range(count: i128, part: u64, of: u64) -> bool
    requires { part < of }
    ensures { IsTrue result ↔ IsInRange (units count +ᶠ over (pos part) (10 ^ 18 * of)) }
{
    if count < FIRST {
        return false;
    }
    if count == LAST {
        return part == 0;
    }
    count < LAST
}
