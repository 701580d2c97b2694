//! Decimals that are whole numbers.

ghost use Rattle.std.specs.Prelude.{◌≡◌, ◌≤◌, ◌^◌, ◌↔◌, ℕ, ℤ, IsTrue, IfSome, Some};
ghost use Rattle.std.specs.List.{All};
ghost use Rattle.st_decimal.specs.Scaling.{IsTimesTen};
ghost use Rattle.st_ticks.specs.Variables.{IsNumber, IsWholeNumber, IsFrom};

use st_decimal::Dec;

/// The greatest number that a variable of a face may have.
const MOST: i64 = 1_000_000_000_000_000_000;

/// The most places by which a decimal of 128 bits can be whole.
const MOST_PLACES: u32 = 38;

/// Whether a decimal is a whole number, of any size.
fn is_whole(d: Dec) -> bool
    ensures { IsTrue result ↔ IsWholeNumber d }
{
    is_scaled_whole(d.digits, d.tens)
}

/// Whether digits times ten to a power are a whole number.
fn is_scaled_whole(digits: i128, tens: i32) -> bool
    ensures { IsTrue result ↔ ((z : ℤ) × IsTimesTen digits tens z) }
{
    let size = digits.unsigned_abs();
    if size == 0 {
        return true;
    }
    if tens >= 0 {
        return true;
    }
    let places = tens.unsigned_abs();
    if places > MOST_PLACES {
        return false;
    }
    size % 10u128.pow(places) == 0
}

/// Whether all decimals are whole numbers.
pub fn are_whole(values: &[Dec]) -> bool
    ensures { IsTrue result ↔ All IsWholeNumber values.now }
{
    for value in values {
        if !is_whole(*value) {
            return false;
        }
    }
    true
}

/// The number that a decimal is, where it is whole and from 0 to 10^18.
pub fn natural(d: Dec) -> Option<u64>
    ensures some { IfSome result (λ n. IsNumber n d) }
    ensures small { IfSome result (λ n. n ≤ 10 ^ 18) }
    ensures only { (n : ℕ) → IsNumber n d → n ≤ 10 ^ 18 → result ≡ Some n }
{
    let n = d.whole()?;
    if 0 <= n && n <= MOST {
        Some(n as u64)
    } else {
        None
    }
}

/// Whether a decimal is a whole number within bounds.
fn is_from(d: Dec, low: u64, high: u64) -> bool
    requires { high ≤ 10 ^ 18 }
    ensures { IsTrue result ↔ IsFrom low high d }
{
    match natural(d) {
        Some(n) => low <= n && n <= high,
        None => false,
    }
}

/// Whether all decimals are whole numbers within bounds.
pub fn are_from(values: &[Dec], low: u64, high: u64) -> bool
    requires { high ≤ 10 ^ 18 }
    ensures { IsTrue result ↔ All (IsFrom low high) values.now }
{
    for value in values {
        if !is_from(*value, low, high) {
            return false;
        }
    }
    true
}
