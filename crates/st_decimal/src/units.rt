//! The decimal of a count of units of 10^-18.

ghost use Rattle.std.specs.Prelude.{◌≡◌, ◌<◌, ◌≤◌, ◌^◌, unsigned_abs};
ghost use Rattle.st_decimal.specs.ScalingMachine as machine;
ghost use Rattle.st_decimal.specs.ScalingMachine.{dec_of_units18};

use crate::number::Dec;
use crate::sign::signed_like;

/// The decimal of a count of units, with digits that are no multiple of ten, or two zeros.
#[tactic(auto, unfolding(crate::specs::ScalingMachine::dec_of_units18))]
pub fn from_units(units: i128) -> Dec
    requires { unsigned_abs units < 10 ^ 38 }
    ensures { result ≡ dec_of_units18 units }
{
    if units == 0 {
        return Dec { digits: 0, tens: 0 };
    }
    let (size, zeros) = strip(units.unsigned_abs());
    Dec {
        digits: signed_like(units, size),
        tens: zeros as i32 - 18,
    }
}

/// A number without the zeros at its end, at most 38 of them, and how many there were.
fn strip(number: u128) -> (u128, u32)
    ensures value { (result.0, result.1) ≡ machine.strip_of 38 number 0 }
    ensures less { result.0 ≤ number }
    ensures few { result.1 ≤ 38 }
{
    let mut rest = number;
    let mut zeros = 0;
    while zeros < 38 && rest % 10 == 0 {
        rest /= 10;
        zeros += 1;
    }
    (rest, zeros)
}
