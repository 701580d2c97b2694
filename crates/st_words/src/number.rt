//! Numbers among the words.

ghost use Rattle.std.specs.Prelude.{◌≡◌, ◌<◌, ◌≤◌, ◌^◌, IsTrue, IfSome, min};
ghost use Rattle.st_text.specs.Bytes as bytes;
ghost use Rattle.st_text.specs.Bytes.{number_of};
ghost use Rattle.st_words.specs.WordsMachine as machine;

use st_text::are_digits;

/// From here on numbers are not told from one another.
const TOO_LARGE: u128 = 1 << 64;

/// The greatest magnitude of a clock's id.
const MOST_ID: u64 = 999_999_999;

/// The number that digits spell, where it lies within these bounds.
#[tactic(auto, unfolding(crate::specs::WordsMachine::number_within))]
pub fn number_within(text: &[u8], low: u64, high: u64) -> Option<u64>
    ensures number { result ≡ machine.number_within low high text.now }
    ensures within { IfSome result (λ number. number ≤ high) }
{
    if text.is_empty() || !are_digits(text) {
        return None;
    }
    let number = capped(text);
    if u128::from(low) <= number && number <= u128::from(high) {
        Some(number as u64)
    } else {
        None
    }
}

/// The magnitude of a clock's id, which is a minus sign and digits.
pub fn clock_of(text: &[u8]) -> Option<u32>
    ensures { result ≡ machine.clock_of text.now }
{
    match text {
        [b'-', digits @ ..] => Some(number_within(digits, 1, MOST_ID)? as u32),
        _ => None,
    }
}

/// The number that digits spell, or 2^64 where it is at least that.
fn capped(digits: &[u8]) -> u128
    requires { IsTrue (bytes.are_digits digits.now) }
    ensures { result ≡ min (number_of digits.now) (2 ^ 64) }
{
    let mut number = 0;
    for digit in digits {
        number = TOO_LARGE.min(10 * number + u128::from(digit.saturating_sub(b'0')));
    }
    number
}
