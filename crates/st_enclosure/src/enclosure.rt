ghost use Rattle.std.specs.Prelude.{◌≡◌, ℤ, pos, ◌+◌, ◌*◌, ◌^◌, ◌≤◌, ◌+ℤ◌, ◌-ℤ◌, ◌*ℤ◌, ◌≤ℤ◌, ◌<ℤ◌, unsigned_abs};

use crate::rounding::{
    UNIT, ceil_scaled, ceil_unit, floor_scaled, floor_unit, greatest, least, product,
};

/// What lies from `lo` to `hi`, both included, in units of 10^-18: fractions of any denominator.
#[derive(Clone, Copy, Debug, PartialEq, Eq)]
pub struct Enc {
    pub lo: i128,
    pub hi: i128,
    ghost ordered: { lo ≤ℤ hi },
}

impl Enc {
    ghost use Rattle.st_fraction.specs.Fraction.{Fraction, IsFraction, over, units, ◌+ᶠ◌, ◌-ᶠ◌, ◌*ᶠ◌, LiesWithin, IsNear};
    ghost use Rattle.st_enclosure.specs.Ends.{EndsAtMost, IsProductOfEnds, IsEither};

    /// The number `x` alone.
    pub fn point(x: i128) -> Enc
        ensures low { result.lo ≡ x }
        ensures high { result.hi ≡ x }
        ensures contains { LiesWithin result.lo result.hi (units x) }
    {
        Enc { lo: x, hi: x }
    }

    /// The sums. No end is beyond 10^37 units.
    pub fn add(self, other: Enc) -> Enc
        requires ends { EndsAtMost self.lo self.hi (10 ^ 37) }
        requires other_ends { EndsAtMost other.lo other.hi (10 ^ 37) }
        ensures low { result.lo ≡ self.lo +ℤ other.lo }
        ensures high { result.hi ≡ self.hi +ℤ other.hi }
        ensures contains { (x y : Fraction) → LiesWithin self.lo self.hi x → LiesWithin other.lo other.hi y → LiesWithin result.lo result.hi (x +ᶠ y) }
    {
        Enc {
            lo: self.lo + other.lo,
            hi: self.hi + other.hi,
        }
    }

    /// The differences. No end is beyond 10^37 units.
    pub fn sub(self, other: Enc) -> Enc
        requires ends { EndsAtMost self.lo self.hi (10 ^ 37) }
        requires other_ends { EndsAtMost other.lo other.hi (10 ^ 37) }
        ensures low { result.lo ≡ self.lo -ℤ other.hi }
        ensures high { result.hi ≡ self.hi -ℤ other.lo }
        ensures contains { (x y : Fraction) → LiesWithin self.lo self.hi x → LiesWithin other.lo other.hi y → LiesWithin result.lo result.hi (x -ᶠ y) }
    {
        Enc {
            lo: self.lo - other.hi,
            hi: self.hi - other.lo,
        }
    }

    /// The products. No end is beyond 4·10^18 units, which is 4.
    pub fn mul_unit(self, other: Enc) -> Enc
        requires ends { EndsAtMost self.lo self.hi (4 * 10 ^ 18) }
        requires other_ends { EndsAtMost other.lo other.hi (4 * 10 ^ 18) }
        ensures contains { (x y : Fraction) → LiesWithin self.lo self.hi x → LiesWithin other.lo other.hi y → LiesWithin result.lo result.hi (x *ᶠ y) }

        // Less than one unit beyond a product of two ends.
        ensures tight_low { (m : ℤ) × (IsProductOfEnds self.lo self.hi other.lo other.hi m × (m <ℤ ((result.lo +ℤ pos 1) *ℤ UNIT))) }
        ensures tight_high { (m : ℤ) × (IsProductOfEnds self.lo self.hi other.lo other.hi m × (((result.hi -ℤ pos 1) *ℤ UNIT) <ℤ m)) }
    {
        let a = product(self.lo, other.lo);
        let b = product(self.lo, other.hi);
        let c = product(self.hi, other.lo);
        let d = product(self.hi, other.hi);
        Enc {
            lo: floor_unit(least(a, b, c, d)),
            hi: ceil_unit(greatest(a, b, c, d)),
        }
    }

    /// Each number times `num / den`. `den` lies from 1 to 10^18, `num` is at most 10^18 in magnitude, and no end times
    /// `num / den` is beyond 10^37 units.
    pub fn times_fraction(self, num: i128, den: i128) -> Enc
        requires den_low { pos 1 ≤ℤ den }
        requires den_high { den ≤ℤ pos (10 ^ 18) }
        requires num_small { unsigned_abs num ≤ 10 ^ 18 }
        requires low_fits { unsigned_abs self.lo * unsigned_abs num ≤ 10 ^ 37 * unsigned_abs den }
        requires high_fits { unsigned_abs self.hi * unsigned_abs num ≤ 10 ^ 37 * unsigned_abs den }
        ensures contains { (x : Fraction) → LiesWithin self.lo self.hi x → LiesWithin result.lo result.hi (x *ᶠ over num (unsigned_abs den)) }

        // Less than one unit beyond an end times `num / den`.
        ensures tight_low { (e : ℤ) × (IsEither self.lo self.hi e × ((e *ℤ num) <ℤ ((result.lo +ℤ pos 1) *ℤ den))) }
        ensures tight_high { (e : ℤ) × (IsEither self.lo self.hi e × (((result.hi -ℤ pos 1) *ℤ den) <ℤ (e *ℤ num))) }
    {
        if num < 0 {
            Enc {
                lo: floor_scaled(self.hi, num, den),
                hi: ceil_scaled(self.lo, num, den),
            }
        } else {
            Enc {
                lo: floor_scaled(self.lo, num, den),
                hi: ceil_scaled(self.hi, num, den),
            }
        }
    }

    /// What lies at most `by` units, at most 10^37, from a contained number. No end is beyond 10^37 units.
    pub fn widen(self, by: i128) -> Enc
        requires ends { EndsAtMost self.lo self.hi (10 ^ 37) }
        requires by_low { pos 0 ≤ℤ by }
        requires by_high { by ≤ℤ pos (10 ^ 37) }
        ensures low { result.lo ≡ self.lo -ℤ by }
        ensures high { result.hi ≡ self.hi +ℤ by }
        ensures contains { (x y : Fraction) → IsFraction x → LiesWithin self.lo self.hi x → IsNear x y (units by) → LiesWithin result.lo result.hi y }
    {
        Enc {
            lo: self.lo - by,
            hi: self.hi + by,
        }
    }
}

#[cfg(test)]
mod tests {
    use super::*;

    const HALF: i128 = UNIT / 2;

    #[test]
    fn adds_and_widens(rt: HostRuntime) {
        let a = Enc { lo: -7, hi: 3 };
        let b = Enc::point(5);
        assert_eq!(rt; b, Enc { lo: 5, hi: 5 });
        assert_eq!(rt; a.add(b), Enc { lo: -2, hi: 8 });
        assert_eq!(rt; a.sub(b), Enc { lo: -12, hi: -2 });
        assert_eq!(rt; a.widen(4), Enc { lo: -11, hi: 7 });
    }

    // A product of units is rounded down at the lower end and up at the upper end.
    #[test]
    fn multiplies(rt: HostRuntime) {
        let a = Enc { lo: -3, hi: HALF };
        let b = Enc { lo: -1, hi: UNIT };
        assert_eq!(rt; a.mul_unit(b), Enc { lo: -3, hi: HALF });
        assert_eq!(rt; a.mul_unit(Enc::point(1)), Enc { lo: -1, hi: 1 });
        assert_eq!(rt;
            a.mul_unit(Enc::point(-HALF)),
            Enc {
                lo: -HALF / 2,
                hi: 2
            }
        );
    }

    // A negative factor exchanges the ends; a product beyond 128 bits is met in two steps.
    #[test]
    fn takes_a_fraction(rt: HostRuntime) {
        let a = Enc { lo: -7, hi: 10 };
        assert_eq!(rt; a.times_fraction(2, 3), Enc { lo: -5, hi: 7 });
        assert_eq!(rt; a.times_fraction(-2, 3), Enc { lo: -7, hi: 5 });
        assert_eq!(rt; a.times_fraction(0, 3), Enc { lo: 0, hi: 0 });
        let far = Enc::point(10_000_000_000_000_000_000_000_000_000_000_000_003);
        let rate = UNIT - 1;
        let low = 9_999_999_999_999_999_990_000_000_000_000_000_002;
        assert_eq!(rt;
            far.times_fraction(rate, UNIT),
            Enc {
                lo: low,
                hi: low + 1
            }
        );
    }
}
