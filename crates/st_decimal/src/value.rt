//! The value of a number's pieces.

ghost use Rattle.std.specs.Prelude.{◌≡◌, ◌+◌, ◌≤◌, ◌<◌, ◌^◌, ◌++◌, pos, negsuc, ◌+ℤ◌, ◌-ℤ◌, ◌≤ℤ◌, length, nat_lt, Some, None, IsTrue, if◌then◌else◌};
ghost use Rattle.st_text.specs.Bytes.{are_digits, number_of};
ghost use Rattle.st_decimal.specs.Value as spec;
ghost use Rattle.st_decimal.specs.NumberMachine.{value_of};

use crate::number::{Dec, DecFault};
use crate::pieces::Pieces;
use crate::sign::signed;
use crate::zeros::{drop_zeros, skip_zeros, without_end_zeros};
use st_text::{read_digits, read_wide_digits};

/// The most digits from the first nonzero digit to the last.
const MOST_DIGITS: usize = 30;

/// The greatest magnitude of an exponent.
const MOST_EXPONENT: u64 = 400;

/// The value of a number's pieces, or why it is not within the limits.
#[tactic(auto, unfolding(crate::specs::NumberMachine::value_of, crate::specs::NumberMachine::scaled_dec))]
pub fn value(pieces: &Pieces<'_>) -> Result<Dec, DecFault>
    requires whole { IsTrue (are_digits pieces.now.whole.now) }
    requires decimals { IsTrue (are_digits pieces.now.decimals.now) }
    requires exponent { IsTrue (are_digits pieces.now.exponent.now) }
    requires short { length pieces.now.whole.now + length pieces.now.decimals.now ≤ 1000 }
    ensures { result ≡ value_of (record {
      minus = pieces.now.negative;
      whole = pieces.now.whole.now;
      decimals = pieces.now.decimals.now;
      exponent_minus = pieces.now.exponent_negative;
      exponent = pieces.now.exponent.now;
    }) }
{
    let (whole, decimals) = without_end_zeros(pieces.whole, pieces.decimals);
    let count = pieces.whole.len() + pieces.decimals.len();
    let dropped = count - (whole.len() + decimals.len());
    let (front, back) = skip_zeros(whole, decimals);
    let significant = front.len() + back.len();
    if significant > MOST_DIGITS {
        return Err(DecFault::TooManyDigits);
    }
    let Some(exponent) = exponent(pieces.exponent_negative, pieces.exponent) else {
        return Err(DecFault::BadExponent);
    };
    if significant == 0 {
        return Ok(Dec { digits: 0, tens: 0 });
    }
    Ok(Dec {
        digits: signed(pieces.negative, number(front, back)),
        tens: last_tens(exponent, pieces.decimals.len(), dropped),
    })
}

/// The number that digits in two pieces spell.
fn number(front: &[u8], back: &[u8]) -> u128
    requires front { IsTrue (are_digits front.now) }
    requires back { IsTrue (are_digits back.now) }
    requires few { length front.now + length back.now ≤ MOST_DIGITS }
    ensures value { result ≡ number_of (front.now ++ back.now) }
    ensures below { result < 10 ^ 30 }
{
    read_wide_digits(front) * 10u128.pow(back.len() as u32) + read_wide_digits(back)
}

/// The exponent, or none where its magnitude is greater than 400.
fn exponent(negative: bool, digits: &[u8]) -> Option<i128>
    requires { IsTrue (are_digits digits.now) }
    ensures value { result ≡ (if nat_lt MOST_EXPONENT (number_of digits.now) then None
        else Some (spec.signed negative (number_of digits.now))) }
{
    let digits = drop_zeros(digits);
    if digits.len() > 3 {
        return None;
    }
    let size = read_digits(digits);
    if size > MOST_EXPONENT {
        return None;
    }
    Some(signed(negative, u128::from(size)))
}

/// The power of ten of the last significant digit.
fn last_tens(exponent: i128, decimals: usize, dropped: usize) -> i32
    requires least { negsuc 399 ≤ℤ exponent }
    requires most { exponent ≤ℤ pos 400 }
    requires decimals { decimals ≤ 1000 }
    requires dropped { dropped ≤ 1000 }
    ensures { result ≡ (exponent -ℤ pos decimals) +ℤ pos dropped }
{
    (exponent - decimals as i128 + dropped as i128) as i32
}
