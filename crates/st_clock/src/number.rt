//! What a record's three numbers may be.

ghost use Rattle.std.specs.Prelude.{◌≡◌, ◌↔◌, ◌≤ℤ◌, ◌<ℤ◌, ℕ, ℤ, pos, Some, IsTrue, IfSome};
ghost use Rattle.st_decimal.specs.Scaling.{IsTimesTen};
ghost use Rattle.st_clock.specs.Parts.{HasNumber, HasUnits, IsTick, IsTime, IsRate};

use st_decimal::Dec;

/// The greatest tick.
const MOST_TICKS: u64 = 1_000_000_000_000_000_000;

/// The greatest magnitude of a time, 10^10 s in units.
const MOST_TIME: u128 = 10_000_000_000_000_000_000_000_000_000;

/// The greatest rate, 10^5 s in units.
const MOST_RATE: i128 = 100_000_000_000_000_000_000_000;

/// Whether a decimal is a whole number, of any size.
pub fn is_whole(d: Dec) -> bool
    ensures { IsTrue result ↔ HasNumber d }
{
    is_whole_product(d.digits, d.tens)
}

/// Whether a number times ten to a power is whole.
fn is_whole_product(digits: i128, tens: i32) -> bool
    ensures { IsTrue result ↔ ((n : ℤ) × IsTimesTen digits tens n) }
{
    if tens >= 0 {
        return true;
    }
    if digits == 0 {
        return true;
    }
    if tens < -40 {
        return false;
    }
    // A power below 0 leaves less than 10^38, to which counts of units reach.
    let parts = Dec {
        digits,
        tens: tens - 18,
    };
    match parts.units18() {
        Some(_) => true,
        None => false,
    }
}

/// Whether a decimal is a count of units.
pub fn has_units(d: Dec) -> bool
    ensures { IsTrue result ↔ HasUnits d }
{
    d.units18().is_some()
}

/// A record's tick, from 0 to 10^18.
pub fn tick_of(d: Dec) -> Option<u64>
    ensures some { IfSome result (IsTick d) }
    ensures only { (n : ℕ) → IsTick d n → result ≡ Some n }
{
    match d.whole() {
        Some(n) if 0 <= n && n <= MOST_TICKS as i64 => Some(n as u64),
        _ => None,
    }
}

/// A record's time, at most 10^10 s in magnitude.
pub fn time_of(d: Dec) -> Option<i128>
    ensures some { IfSome result (IsTime d) }
    ensures only { (u : ℤ) → IsTime d u → result ≡ Some u }
{
    match d.units18() {
        Some(u) if u.unsigned_abs() <= MOST_TIME => Some(u),
        _ => None,
    }
}

/// A record's rate, above 0 and at most 10^5 s.
pub fn rate_of(d: Dec) -> Option<u128>
    ensures some { IfSome result (IsRate d) }
    ensures only { (n : ℕ) → IsRate d n → result ≡ Some n }
{
    match d.units18() {
        Some(u) if 0 < u && u <= MOST_RATE => Some(u as u128),
        _ => None,
    }
}
