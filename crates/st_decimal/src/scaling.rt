//! Whole numbers times powers of ten.

ghost use Rattle.std.specs.Prelude.{◌≡◌, ◌*◌, ◌^◌, ◌<◌, ◌≤◌, ℕ, ℤ, Some, IfSome, MatchOption, unsigned_abs, FitsSigned};
ghost use Rattle.std.specs.Int.{w64};
ghost use Rattle.st_decimal.specs.Scaling.{IsTimesTen};
ghost use Rattle.st_decimal.specs.ScalingMachine.{IsSizeTimesTen};

use crate::sign::signed_like;

/// A number times ten to a power, where it is whole and its magnitude is below 10^38.
pub fn times_ten(n: i128, power: i64) -> Option<i128>
    ensures some { IfSome result (λ u. IsTimesTen n power u × (unsigned_abs u < 10 ^ 38)) }
    ensures only { (u : ℤ) → IsTimesTen n power u → unsigned_abs u < 10 ^ 38 → result ≡ Some u }
{
    match size_times_ten(n.unsigned_abs(), power) {
        Some(size) => Some(signed_like(n, size)),
        None => None,
    }
}

/// A magnitude times ten to a power, where it is whole and below 10^38.
fn size_times_ten(size: u128, power: i64) -> Option<u128>
    ensures some { IfSome result (λ m. IsSizeTimesTen size power m × (m < 10 ^ 38)) }
    ensures only { (m : ℕ) → IsSizeTimesTen size power m → m < 10 ^ 38 → result ≡ Some m }
{
    if size == 0 {
        return Some(0);
    }
    let count = power.unsigned_abs();
    if power < 0 {
        lowered(size, count)
    } else {
        raised(size, count)
    }
}

/// A magnitude times ten to a power, where it is below 10^38.
fn raised(size: u128, count: u64) -> Option<u128>
    requires { 0 < size }
    ensures { MatchOption result (10 ^ 38 ≤ size * 10 ^ count)
        (λ m. (m ≡ size * 10 ^ count) × (m < 10 ^ 38)) }
{
    if count > 37 {
        return None;
    }
    if size >= 10u128.pow(38 - count as u32) {
        return None;
    }
    Some(size * 10u128.pow(count as u32))
}

/// A magnitude divided by a power of ten, where it is whole.
fn lowered(size: u128, count: u64) -> Option<u128>
    requires some { 0 < size }
    requires power { 0 < count }
    ensures { MatchOption result ((m : ℕ) → m * 10 ^ count ≡ size → ⊥)
        (λ m. (m * 10 ^ count ≡ size) × (m < 10 ^ 38)) }
{
    if count > 38 {
        return None;
    }
    let divisor = 10u128.pow(count as u32);
    if size % divisor != 0 {
        return None;
    }
    Some(size / divisor)
}

/// The number as one of 64 bits, where it fits.
pub fn narrowed(n: Option<i128>) -> Option<i64>
    ensures some { IfSome result (λ x. n ≡ Some x) }
    ensures only { (x : ℤ) → n ≡ Some x → FitsSigned w64 x → result ≡ Some x }
{
    match n {
        Some(wide) => i64::try_from(wide).ok(),
        None => None,
    }
}
