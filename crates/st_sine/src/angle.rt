ghost use Rattle.std.specs.Prelude.{◌≡◌, ℤ, pos, ◌+◌, ◌*◌, ◌^◌, ◌≤◌, ◌-ℤ◌, ◌*ℤ◌, ◌≤ℤ◌, unsigned_abs};
ghost use Rattle.st_fraction.specs.Fraction.{Fraction, IsFraction, units, LiesWithin};
ghost use Rattle.st_enclosure.specs.Ends.{EndsAtMost};
ghost use Rattle.st_series.specs.Enclosed.{HasSine, HasCosine};

use crate::double::double;
use st_enclosure::Enc;
use st_series::sin_cos_small;

/// Enclosures of the sine and of the cosine of every angle that `arg` contains, in radians. `arg` is halved as often as
/// `halvings` says, at most 11 times, and is then at most 2 in magnitude; it is at most 10^7 units wide.
pub fn sin_cos(arg: Enc, halvings: u32) -> (Enc, Enc)
    requires halvings { halvings ≤ 11 }
    requires ends { EndsAtMost arg.lo arg.hi (2 * 10 ^ 18 * 2 ^ halvings) }
    requires narrow { (arg.hi -ℤ arg.lo) ≤ℤ pos (10 ^ 7) }
    ensures sine { (x : Fraction) → IsFraction x → LiesWithin arg.lo arg.hi x → HasSine result.0.lo result.0.hi x }
    ensures cosine { (x : Fraction) → IsFraction x → LiesWithin arg.lo arg.hi x → HasCosine result.1.lo result.1.hi x }

    ensures sine_narrow { (result.0.hi -ℤ result.0.lo) ≤ℤ pos (4 * 10 ^ 8) }
    ensures cosine_narrow { (result.1.hi -ℤ result.1.lo) ≤ℤ pos (4 * 10 ^ 8) }

    ensures sine_ends { EndsAtMost result.0.lo result.0.hi (2 * 10 ^ 18) }
    ensures cosine_ends { EndsAtMost result.1.lo result.1.hi (2 * 10 ^ 18) }
{
    let (start, distance) = reduced(arg.lo, arg.hi, halvings);
    let (sine, cosine) = doubled(start, halvings);
    (sine.widen(distance), cosine.widen(distance))
}

// A small angle, which doubled so many times is at most 2,048 units below `low`; and how far it then is from `high`.
fn reduced(low: i128, high: i128, halvings: u32) -> (i128, i128)
    requires halvings { halvings ≤ 11 }
    requires order { low ≤ℤ high }
    requires ends { EndsAtMost low high (2 * 10 ^ 18 * 2 ^ halvings) }
    requires narrow { (high -ℤ low) ≤ℤ pos (10 ^ 7) }
    ensures start { unsigned_abs result.0 ≤ 2 * 10 ^ 18 }
    ensures below { (result.0 *ℤ pos (2 ^ halvings)) ≤ℤ low }
    ensures distance { result.1 ≡ high -ℤ result.0 *ℤ pos (2 ^ halvings) }
    ensures at_least { pos 0 ≤ℤ result.1 }
    ensures at_most { result.1 ≤ℤ pos (10 ^ 7 + 2048) }
{
    let scale = power_of_two(halvings);
    let start = low.div_euclid(scale);
    (start, high - start * scale)
}

fn power_of_two(exponent: u32) -> i128
    requires { exponent ≤ 11 }
    ensures value { result ≡ pos (2 ^ exponent) }
    ensures low { pos 1 ≤ℤ result }
    ensures high { result ≤ℤ pos 2048 }
{
    2i128.pow(exponent)
}

// Sine and cosine of `start` units, at most 2, doubled so many times.
fn doubled(start: i128, doublings: u32) -> (Enc, Enc)
    requires start { unsigned_abs start ≤ 2 * 10 ^ 18 }
    requires doublings { doublings ≤ 11 }
    ensures sine { HasSine result.0.lo result.0.hi (units (start *ℤ pos (2 ^ doublings))) }
    ensures cosine { HasCosine result.1.lo result.1.hi (units (start *ℤ pos (2 ^ doublings))) }
    ensures sine_narrow { (result.0.hi -ℤ result.0.lo) ≤ℤ pos 219501908 }
    ensures cosine_narrow { (result.1.hi -ℤ result.1.lo) ≤ℤ pos 219501908 }
    ensures sine_ends { EndsAtMost result.0.lo result.0.hi (10 ^ 18 + 219501908) }
    ensures cosine_ends { EndsAtMost result.1.lo result.1.hi (10 ^ 18 + 219501908) }
{
    let (mut sine, mut cosine) = sin_cos_small(start);
    for i in 0..doublings {
        let (next_sine, next_cosine) = double(sine, cosine);
        sine = next_sine;
        cosine = next_cosine;
    }
    (sine, cosine)
}

#[cfg(test)]
mod tests {
    use super::*;
    use std::process::Abort;

    // A unit is 10^6 parts of 10^-24.
    const PARTS: i128 = 1_000_000;

    fn encloses(rt: &impl Abort, arg: Enc, halvings: u32, sine: i128, cosine: i128)
        requires halvings { halvings ≤ 11 }
        requires ends { EndsAtMost arg.lo arg.hi (2 * 10 ^ 18 * 2 ^ halvings) }
        requires narrow { (arg.hi -ℤ arg.lo) ≤ℤ pos (10 ^ 7) }
    {
        let (s, c) = sin_cos(arg, halvings);
        assert!(rt; s.lo <= sine.div_euclid(PARTS) && sine.div_euclid(PARTS) < s.hi);
        assert!(rt; c.lo <= cosine.div_euclid(PARTS) && cosine.div_euclid(PARTS) < c.hi);
        assert!(rt; s.hi - s.lo <= 400_000_000 && c.hi - c.lo <= 400_000_000);
    }

    // Angles in units, 500 to either side; how often they are halved; and the sine and the cosine in their midst, to
    // twenty-four decimals by mpmath at sixty digits.
    #[test]
    fn encloses_small_angles(rt: HostRuntime) {
        encloses(
            &rt,
            Enc { lo: -500, hi: 500 },
            0,
            0,
            1_000_000_000_000_000_000_000_000,
        );
        encloses(
            &rt,
            Enc {
                lo: 999_999_999_999_999_500,
                hi: 1_000_000_000_000_000_500,
            },
            0,
            841_470_984_807_896_506_652_502,
            540_302_305_868_139_717_400_937,
        );
        encloses(
            &rt,
            Enc {
                lo: -2_000_000_000_000_000_000,
                hi: -1_999_999_999_999_999_000,
            },
            0,
            -909_297_426_825_681_903_469_438,
            -416_146_836_547_141_932_348_855,
        );
    }

    #[test]
    fn encloses_halved_angles(rt: HostRuntime) {
        encloses(
            &rt,
            Enc {
                lo: 2_999_999_999_999_999_500,
                hi: 3_000_000_000_000_000_500,
            },
            1,
            141_120_008_059_867_222_100_745,
            -989_992_496_600_445_457_271_573,
        );
        encloses(
            &rt,
            Enc {
                lo: -1_273_500_000_000_000_000_501,
                hi: -1_273_499_999_999_999_999_501,
            },
            11,
            914_784_980_800_726_741_654_257,
            -403_941_132_965_453_280_117_345,
        );
        encloses(
            &rt,
            Enc {
                lo: 1_270_999_999_999_999_999_499,
                hi: 1_271_000_000_000_000_000_499,
            },
            10,
            974_621_662_904_342_771_177_098,
            -223_858_469_121_839_671_928_384,
        );
        encloses(
            &rt,
            Enc {
                lo: 4_095_999_999_999_999_999_000,
                hi: 4_096_000_000_000_000_000_000,
            },
            11,
            -594_641_987_608_215_072_725_801,
            803_990_613_485_848_721_380_523,
        );
    }
}
