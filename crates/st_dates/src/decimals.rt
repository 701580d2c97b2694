//! The decimals of a second.

ghost use Rattle.std.specs.Prelude.{◌≡◌, ◌<◌, ◌^◌, ℕ, Some, IfSome};
ghost use Rattle.st_dates.specs.Decimals.{SpellsDecimals};
ghost use Rattle.st_dates.specs.TimeTextMachine.{decimal_units};

use st_text::{is_digit_run, read_digits};

/// The decimals of a second in units of 10^-18 s: a point and 1 to 12 digits, or an empty text,
/// which stands for 0. None where the text is neither.
pub fn read_decimals(text: &[u8]) -> Option<u64>
    ensures reads { IfSome result (SpellsDecimals text.now) }
    ensures only { (units : ℕ) → SpellsDecimals text.now units → result ≡ Some units }
    ensures below { IfSome result (λ units. units < 10 ^ 18) }
    ensures exact { result ≡ decimal_units text.now }
{
    find_decimals(text)
}

#[tactic(auto, unfolding(crate::specs::TimeTextMachine::decimal_units))]
fn find_decimals(text: &[u8]) -> Option<u64>
    ensures value { result ≡ decimal_units text.now }
    ensures below { IfSome result (λ units. units < 10 ^ 18) }
{
    match text {
        [] => Some(0),
        [b'.', digits @ ..] if is_digit_run(digits, 1, 12) => {
            Some(read_digits(digits) * 10u64.pow(18 - digits.len() as u32))
        }
        _ => None,
    }
}
