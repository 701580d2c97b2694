//! Exact decimals, and their texts as kernels write them.

use crate::scaling::{narrowed, times_ten};
use crate::units::from_units;
use thiserror::Error;

/// An exact decimal, `digits * 10^tens`.
///
/// What `read_dec` gives has digits that are no multiple of ten, and zero as `Dec { 0, 0 }`. Two
/// are equal where both their numbers are: `Dec { 10, 0 }` and `Dec { 1, 1 }` are not.
#[derive(Clone, Copy, Debug, PartialEq, Eq)]
pub struct Dec {
    pub digits: i128,
    pub tens: i32,
}

impl Dec {
    ghost use Rattle.std.specs.Prelude.{◌≡◌, ◌↔◌, ◌<◌, ℤ, Some, IfSome, IsNone, unsigned_abs};
    ghost use Rattle.st_decimal.specs.Limits.{units_bound};
    ghost use Rattle.st_decimal.specs.Scaling.{IsUnits18, IsWhole};
    ghost use Rattle.st_decimal.specs.ScalingMachine.{dec_of_units18};
    ghost use Rattle.st_decimal.specs.Value.{IsOfUnits18};
    ghost use Rattle.st_decimal.specs.declared.number.Dec.{Dec as Decimal};

    /// The value in units of 10^-18. None where it is no whole number of units, or where its
    /// magnitude is at least 10^38 units.
    pub fn units18(self) -> Option<i128>
        ensures some { IfSome result (IsUnits18 self) }
        ensures only { (units : ℤ) → IsUnits18 self units → result ≡ Some units }
        ensures none { IsNone result ↔ ((units : ℤ) → IsUnits18 self units → ⊥) }
    {
        times_ten(self.digits, i64::from(self.tens) + 18)
    }

    /// The decimal of a count of units of 10^-18, of a magnitude below 10^38: what `units18` gives
    /// is turned back. Its digits are no multiple of ten, and zero is `Dec { 0, 0 }`.
    pub fn from_units18(units: i128) -> Dec
        requires { unsigned_abs units < units_bound }
        ensures value { IsOfUnits18 units result }
        ensures units { IsUnits18 result units }
        ensures only { (d : Decimal) → IsOfUnits18 units d → result ≡ d }
        ensures exact { result ≡ dec_of_units18 units }
    {
        from_units(units)
    }

    /// The value as a whole number. None where it is not whole or lies outside `i64`.
    pub fn whole(self) -> Option<i64>
        ensures some { IfSome result (IsWhole self) }
        ensures only { (n : ℤ) → IsWhole self n → result ≡ Some n }
        ensures none { IsNone result ↔ ((n : ℤ) → IsWhole self n → ⊥) }
    {
        narrowed(times_ten(self.digits, i64::from(self.tens)))
    }
}

/// Why a text is no number within the limits.
#[derive(Clone, Copy, Debug, PartialEq, Eq, Error)]
pub enum DecFault {
    /// The text has no bytes.
    #[error("no number")]
    Empty,
    /// The first place at which the text stops being a beginning of a number, or its length where
    /// it ends too early.
    #[error("no number from byte {0} on")]
    BadByte(usize),
    /// More than 30 digits stand from the first nonzero digit to the last nonzero one.
    #[error("more than 30 digits")]
    TooManyDigits,
    /// The exponent lies outside -400 to 400.
    #[error("an exponent outside -400 to 400")]
    BadExponent,
}

#[cfg(test)]
mod tests {
    use super::*;
    use std::test::Fail;

    #[test]
    fn counts_units(rt: HostRuntime) -> Result<(), Fail> {
        let most = 99_999_999_999_999_999_999_999_999_999_999_999_999;
        let rows: [(i128, i32, Option<i128>); 9] = [
            (32_184, -3, Some(32_184_000_000_000_000_000)),
            (-1, -18, Some(-1)),
            (10, -19, Some(1)),
            (15, -19, None),
            (0, i32::MAX, Some(0)),
            (1, 20, None),
            (most, -18, Some(most)),
            (i128::MIN, -18, None),
            (7, i32::MIN, None),
        ];
        for (digits, tens, units) in rows {
            assert_eq!(rt; Dec { digits, tens }.units18(), units);
        }
        let rows = [
            (0, 0, 0),
            (-1_000, -1, -15),
            (most, most, -18),
            (5 * 10i128.pow(37), 5, 19),
        ];
        for (units, digits, tens) in rows {
            assert!(rt; -most <= units && units <= most);
            assert_eq!(rt; Dec::from_units18(units), Dec { digits, tens });
        }
        Ok(())
    }

    #[test]
    fn gives_whole_numbers(rt: HostRuntime) -> Result<(), Fail> {
        let rows: [(i128, i32, Option<i64>); 7] = [
            (-82, 0, Some(-82)),
            (4, 3, Some(4000)),
            (2500, -2, Some(25)),
            (25, -1, None),
            (9_223_372_036_854_775_807, 0, Some(i64::MAX)),
            (9_223_372_036_854_775_808, 0, None),
            (-9_223_372_036_854_775_808, 0, Some(i64::MIN)),
        ];
        for (digits, tens, n) in rows {
            assert_eq!(rt; Dec { digits, tens }.whole(), n);
        }
        Ok(())
    }
}
