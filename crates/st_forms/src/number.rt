//! Decimals of any length.

ghost use Rattle.std.specs.Prelude.{◌≡◌, ◌<◌, ◌^◌, IsTrue, IfSome};
ghost use Rattle.st_text.specs.Bytes.{are_digits};
ghost use Rattle.st_forms.specs.NumberMachine as machine;

use st_dates::{SECOND, read_decimals};
use st_text::split_digits;

/// A count of days or of seconds that is far out of the range of times: what is more is read as this.
const FAR: u64 = 100_000_000_000;

/// A decimal, digits and a point with 1 to 12 digits where there is one, in units of 10^-18.
#[tactic(auto, unfolding(crate::specs::NumberMachine::number_of_text))]
pub(crate) fn read_number(text: &[u8]) -> Option<u128>
    ensures value { result ≡ machine.number_of_text text.now }
    ensures below { IfSome result (λ units. units < 10 ^ 30) }
{
    let (digits, rest) = split_digits(text);
    if digits.is_empty() {
        return None;
    }
    let part = read_decimals(rest)?;
    Some(u128::from(read_capped(digits)) * SECOND as u128 + u128::from(part))
}

/// The number that digits spell, or `FAR` where it is more.
fn read_capped(digits: &[u8]) -> u64
    requires { IsTrue (are_digits digits.now) }
    ensures { result ≡ machine.capped digits.now }
{
    let mut number = 0;
    for byte in digits {
        number = FAR.min(10 * number + u64::from(byte.saturating_sub(b'0')));
    }
    number
}
