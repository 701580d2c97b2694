//! The reader of numbers, as text kernels write them.

ghost use Rattle.std.specs.Prelude.{◌≡◌, ◌≤◌, length, Result};
ghost use Rattle.st_decimal.specs.declared.number.Dec.{Dec as Decimal};
ghost use Rattle.st_decimal.specs.declared.number.DecFault.{DecFault as Fault};
ghost use Rattle.st_decimal.specs.Limits.{most_number_bytes};
ghost use Rattle.st_decimal.specs.Value.{ReadsDec};
ghost use Rattle.st_decimal.specs.NumberMachine.{dec_of};

use crate::number::{Dec, DecFault};
use crate::pieces::split;
use crate::place::number_stop;
use crate::value::value;

/// Reads a number: an optional sign, digits with an optional point, or a point and at least one
/// digit, and an optional exponent after `E`, `e`, `D` or `d`. The text has at most 1,000 bytes.
///
/// Source: NAIF's Kernel Required Reading.
///
/// # Errors
///
/// The first of `DecFault`'s variants whose condition holds.
pub fn read_dec(text: &[u8]) -> Result<Dec, DecFault>
    requires { length text.now ≤ most_number_bytes }
    ensures reads { ReadsDec text.now result }
    // No other answer meets it.
    ensures only { (answer : Result Decimal Fault) → ReadsDec text.now answer → result ≡ answer }
    ensures exact { result ≡ dec_of text.now }
{
    read(text)
}

/// The same by steps, which the public call's clauses are proved from.
#[tactic(auto, unfolding(crate::specs::NumberMachine::dec_of))]
fn read(text: &[u8]) -> Result<Dec, DecFault>
    requires { length text.now ≤ most_number_bytes }
    ensures { result ≡ dec_of text.now }
{
    if text.is_empty() {
        return Err(DecFault::Empty);
    }
    if let Some(place) = number_stop(text) {
        return Err(DecFault::BadByte(place));
    }
    value(&split(text))
}

#[cfg(test)]
mod tests {
    use super::*;
    use std::test::Fail;

    #[test]
    fn reads_numbers(rt: HostRuntime) -> Result<(), Fail> {
        let rows: [(&[u8], i128, i32); 14] = [
            (b"12", 12, 0),
            (b"-150", -15, 1),
            (b"-8.83656E+08", -883_656, 3),
            (b"+1.", 1, 0),
            (b".5", 5, -1),
            (b"1.657D-3", 1657, -6),
            (b"000.000", 0, 0),
            (b"-0E9", 0, 0),
            (b"0.00100", 1, -3),
            (b"1e400", 1, 400),
            (b"1d-0400", 1, -400),
            (b"1.0E000000000000000000000000000007", 1, 7),
            (
                b"123456789012345678901234567890",
                12_345_678_901_234_567_890_123_456_789,
                1,
            ),
            (
                b"-0.999999999999999999999999999999000",
                -999_999_999_999_999_999_999_999_999_999,
                -30,
            ),
        ];
        for (text, digits, tens) in rows {
            assert!(rt; text.len() <= 1000);
            assert_eq!(rt; read_dec(text), Ok(Dec { digits, tens }), "{text:?}");
        }
        Ok(())
    }

    #[test]
    fn refuses_other_texts(rt: HostRuntime) -> Result<(), Fail> {
        let rows: [(&[u8], DecFault); 14] = [
            (b"", DecFault::Empty),
            (b"-", DecFault::BadByte(1)),
            (b".", DecFault::BadByte(1)),
            (b"1.2.3", DecFault::BadByte(3)),
            (b"12 ", DecFault::BadByte(2)),
            (b"+-1", DecFault::BadByte(1)),
            (b"1E", DecFault::BadByte(2)),
            (b"1E+", DecFault::BadByte(3)),
            (b".E5", DecFault::BadByte(1)),
            (b"1F5", DecFault::BadByte(1)),
            (b"1234567890123456789012345678901", DecFault::TooManyDigits),
            (
                b"1.000000000000000000000000000001E999",
                DecFault::TooManyDigits,
            ),
            (b"1E401", DecFault::BadExponent),
            (b"0E-1000000000000000000000000000000", DecFault::BadExponent),
        ];
        for (text, fault) in rows {
            assert!(rt; text.len() <= 1000);
            assert_eq!(rt; read_dec(text), Err(fault), "{text:?}");
        }
        Ok(())
    }
}
