//! The tick nearest to a time on a record's line, in whole numbers of 128 bits.

ghost use Rattle.std.specs.Prelude.{◌≡◌, ◌+ℤ◌, ◌+◌, ◌*◌, ◌^◌, ◌≤◌, ◌<◌, ◌≤ℤ◌, ◌⊎◌, pos, unsigned_abs};
ghost use Rattle.std.specs.Option.{ForSome};
ghost use Rattle.st_fraction.specs.Fraction.{over, units, ◌+ᶠ◌};
ghost use Rattle.st_clock.specs.NearestSteps.{IsFloorOrFar};
ghost use Rattle.st_clock.specs.SmallSteps.{IsSmall};
ghost use Rattle.st_clock.specs.Tick.{line_tick, capped};

use crate::coefficient::Coefficient;

/// A number of ticks beyond every clock's: what is farther counts as this many.
const FAR: u128 = 10_000_000_000_000_000_000;

/// The number of ticks in `elapsed` units at `rate` units for each `tpm` ticks, a half counted up; or, where that is 10^19
/// or more, a number that is, too.
///
/// `elapsed * tpm` may not fit, so the whole counts of the first field are taken out first.
fn rounded(elapsed: u128, tpm: u64, rate: u128) -> u128
    requires elapsed_small { elapsed ≤ 2 * 10 ^ 28 }
    requires tpm_some { 0 < tpm }
    requires tpm_small { tpm ≤ 10 ^ 12 }
    requires rate_some { 0 < rate }
    requires rate_small { rate ≤ 10 ^ 23 }
    ensures at_most { 2 * result * rate ≤ 2 * elapsed * tpm + rate }
    ensures nearest { (2 * elapsed * tpm + rate < 2 * (result + 1) * rate) ⊎ (10 ^ 19 ≤ result) }
    ensures small { result ≤ 10 ^ 32 }
{
    let counts = elapsed / rate;
    if counts >= FAR {
        return FAR;
    }
    let rest = elapsed % rate;
    let tpm = u128::from(tpm);
    counts * tpm + (2 * rest * tpm + rate) / (2 * rate)
}

/// How many units a time is after an earlier one.
fn units_since(begin: i128, time: i128) -> u128
    requires { begin ≤ℤ time }
    ensures { time ≡ begin +ℤ pos result }
{
    time.abs_diff(begin)
}

/// The ticks from a record's to the one nearest to a time, on the record's line.
fn ticks_since(tpm: u64, r: Coefficient, time: i128) -> u128
    requires tpm_some { 0 < tpm }
    requires tpm_small { tpm ≤ 10 ^ 12 }
    requires rate { 0 < r.rate }
    requires record_small { IsSmall r }
    requires begun { r.time ≤ℤ time }
    requires time_small { unsigned_abs time ≤ 10 ^ 28 }
    ensures floor { IsFloorOrFar (line_tick tpm r (units time) +ᶠ over (pos 1) 2) (r.ticks + result) }
    ensures small { result ≤ 10 ^ 32 }
{
    rounded(units_since(r.time, time), tpm, r.rate)
}

/// The tick nearest to a time by a record that has begun, and no more than the next record's; or, where that is 10^19 or
/// more, a number that is, too.
pub fn nearest(tpm: u64, r: Coefficient, next: Option<Coefficient>, time: i128) -> u128
    requires tpm_some { 0 < tpm }
    requires tpm_small { tpm ≤ 10 ^ 12 }
    requires rate { 0 < r.rate }
    requires record_small { IsSmall r }
    requires next_small { ForSome next IsSmall }
    requires begun { r.time ≤ℤ time }
    requires time_small { unsigned_abs time ≤ 10 ^ 28 }
    ensures { IsFloorOrFar (capped next (line_tick tpm r (units time)) +ᶠ over (pos 1) 2) result }
{
    let number = u128::from(r.ticks) + ticks_since(tpm, r, time);
    match next {
        Some(next) => number.min(u128::from(next.ticks)),
        None => number,
    }
}
