ghost use Rattle.std.specs.Prelude.{pos, neg_ℤ, ◌*◌, ◌^◌, ◌-ℤ◌, ◌≤ℤ◌};
ghost use Rattle.st_fraction.specs.Fraction.{Fraction, units, ◌+ᶠ◌, ◌*ᶠ◌, LiesWithin};
ghost use Rattle.st_enclosure.specs.Ends.{EndsAtMost};
ghost use Rattle.st_sine.specs.Anomaly.{mean_anomaly, HasAnomalySine};

use crate::orbit::Orbit;
use crate::quarters::sine_of;
use st_enclosure::{Enc, UNIT};

/// An enclosure of sin E at `t`, which is TT in units past J2000, at most 6,311,500,000 s to either side; with
/// `E = M + EB sin M` and `M = M0 + M1 t`. At most 300,000 units wide.
pub fn anomaly_sine(orbit: &Orbit, t: i128) -> Enc
    requires low { neg_ℤ (pos (6311500000 * 10 ^ 18)) ≤ℤ t }
    requires high { t ≤ℤ pos (6311500000 * 10 ^ 18) }
    ensures contains { HasAnomalySine orbit.now.eb orbit.now.m0 orbit.now.m1 (units t) result.lo result.hi }
    ensures narrow { (result.hi -ℤ result.lo) ≤ℤ pos 300000 }
    ensures ends { EndsAtMost result.lo result.hi (2 * 10 ^ 18) }
{
    let mean = mean_of(orbit.m0, orbit.m1, t);
    let inner = sine_of(mean);
    let eccentric = eccentric_of(mean, inner, orbit.eb);
    sine_of(eccentric)
}

// `M0 + M1 t`.
fn mean_of(m0: i128, m1: i128, t: i128) -> Enc
    requires m0_low { neg_ℤ (pos (10 ^ 19)) ≤ℤ m0 }
    requires m0_high { m0 ≤ℤ pos (10 ^ 19) }
    requires m1_low { pos 0 ≤ℤ m1 }
    requires m1_high { m1 ≤ℤ pos (4 * 10 ^ 11) }
    requires low { neg_ℤ (pos (6311500000 * 10 ^ 18)) ≤ℤ t }
    requires high { t ≤ℤ pos (6311500000 * 10 ^ 18) }
    ensures contains { LiesWithin result.lo result.hi (mean_anomaly m0 m1 (units t)) }
    ensures narrow { (result.hi -ℤ result.lo) ≤ℤ pos 1 }
    ensures ends { EndsAtMost result.lo result.hi (2540 * 10 ^ 18) }
{
    let turned = Enc::point(t).times_fraction(m1, UNIT);
    Enc::point(m0).add(turned)
}

// `M + EB s`, for the sines `s` of `M`.
fn eccentric_of(mean: Enc, sine: Enc, eb: i128) -> Enc
    requires mean_ends { EndsAtMost mean.lo mean.hi (2540 * 10 ^ 18) }
    requires sine_ends { EndsAtMost sine.lo sine.hi (2 * 10 ^ 18) }
    requires sine_narrow { (sine.hi -ℤ sine.lo) ≤ℤ pos 300000 }
    requires mean_narrow { (mean.hi -ℤ mean.lo) ≤ℤ pos 1 }
    requires eb_low { pos 0 ≤ℤ eb }
    requires eb_high { eb ≤ℤ pos (2 * 10 ^ 16) }
    ensures contains { (x s : Fraction) → LiesWithin mean.lo mean.hi x → LiesWithin sine.lo sine.hi s → LiesWithin result.lo result.hi (x +ᶠ s *ᶠ units eb) }
    ensures narrow { (result.hi -ℤ result.lo) ≤ℤ pos 10000 }
    ensures ends { EndsAtMost result.lo result.hi (2600 * 10 ^ 18) }
{
    let inner = sine.times_fraction(eb, UNIT);
    mean.add(inner)
}

#[cfg(test)]
mod tests {
    use super::*;
    use std::process::Abort;

    // A unit is 10^6 parts of 10^-24.
    const PARTS: i128 = 1_000_000;

    const LATEST: i128 = 6_311_500_000 * UNIT;

    // Each `sine` is sin E at `t`, to twenty-four decimals by mpmath at eighty digits.
    fn encloses(rt: &impl Abort, orbit: &Orbit, rows: &[(i128, i128)]) {
        for &(t, sine) in rows {
            assert!(rt; -LATEST <= t && t <= LATEST);
            let found = anomaly_sine(orbit, t);
            assert!(rt; found.lo <= sine.div_euclid(PARTS), "at {t}");
            assert!(rt; sine.div_euclid(PARTS) < found.hi, "at {t}");
            assert!(rt; found.hi - found.lo <= 200_000, "at {t}");
        }
    }

    // Times in the range, at its ends and a little beyond, at the constants of the usual leapseconds kernel.
    const USUAL: [(i128, i128); 21] = [
        (
            -6_311_500_000_000_000_000_000_000_000,
            -6_129_896_489_647_676_095_473,
        ),
        (
            -6_311_390_400_000_000_000_000_000_000,
            16_055_009_986_963_099_974_999,
        ),
        (
            -3_155_800_000_000_000_000_000_000_000,
            -35_134_309_555_752_012_063_296,
        ),
        (
            -3_155_716_800_000_000_000_000_000_000,
            -18_298_960_875_455_147_930_928,
        ),
        (
            -2_208_988_800_000_000_000_000_000_001,
            -23_357_728_690_897_573_764_118,
        ),
        (
            -1_000_000_006_999_999_999_876_543_211,
            933_493_162_418_310_970_541_255,
        ),
        (
            -86_400_000_000_000_000_000_000,
            -61_361_230_163_647_736_892_022,
        ),
        (-1_000_000_000_000_000_000, -43_896_868_605_344_390_617_291),
        (-1, -43_896_666_379_785_969_813_923),
        (0, -43_896_666_379_785_969_813_922),
        (1, -43_896_666_379_785_969_813_922),
        (500_000_000_000_000_000, -43_896_565_267_006_074_212_128),
        (
            43_200_000_000_000_000_000_000,
            -35_158_930_329_798_312_054_786,
        ),
        (
            31_557_600_000_000_000_000_000_000,
            -44_065_163_531_197_084_045_856,
        ),
        (
            157_680_000_999_999_999_999_999_999,
            -66_565_840_544_144_234_449_337,
        ),
        (
            788_918_400_000_000_000_000_000_000,
            -52_475_431_185_301_831_929_074,
        ),
        (
            1_577_836_800_000_000_000_000_000_000,
            -61_050_263_627_698_393_658_898,
        ),
        (
            3_155_716_800_000_000_000_000_000_000,
            -69_465_124_403_257_198_239_353,
        ),
        (
            3_155_800_000_000_000_000_000_000_000,
            -52_655_593_996_735_629_392_378,
        ),
        (
            6_311_390_400_000_000_000_000_000_001,
            -103_688_043_010_696_997_253_766,
        ),
        (
            6_311_500_000_000_000_000_000_000_000,
            -81_599_793_152_205_098_851_063,
        ),
    ];

    #[test]
    fn encloses_at_the_usual_constants(rt: HostRuntime) {
        let orbit = Orbit {
            eb: 16_710_000_000_000_000,
            m0: 6_239_996_000_000_000_000,
            m1: 199_096_871_000,
        };
        encloses(&rt, &orbit, &USUAL);
    }

    #[test]
    fn encloses_at_the_greatest_constants(rt: HostRuntime) {
        let orbit = Orbit {
            eb: 20_000_000_000_000_000,
            m0: 10_000_000_000_000_000_000,
            m1: 400_000_000_000,
        };
        let rows = [
            (
                -6_311_500_000_000_000_000_000_000_000,
                -974_678_840_954_010_082_061_778,
            ),
            (
                -6_311_390_400_000_000_000_000_000_000,
                -963_880_910_417_699_578_788_695,
            ),
            (
                -3_155_800_000_000_000_000_000_000_000,
                -915_605_539_205_096_513_772_177,
            ),
            (
                -1_234_567_890_000_000_000_987_654_321,
                -22_323_204_712_441_972_921_324,
            ),
            (0, -534_859_637_242_832_401_604_446),
            (7, -534_859_637_242_832_401_604_449),
            (
                1_600_000_000_000_000_000_000_000_000,
                298_942_445_919_529_962_769_705,
            ),
            (
                3_155_716_800_000_000_000_000_000_000,
                57_108_183_131_492_872_955_286,
            ),
            (
                3_155_800_000_000_000_000_000_000_000,
                24_521_803_789_424_052_077_519,
            ),
            (
                6_311_390_400_000_000_000_000_000_001,
                641_220_897_355_665_074_318_418,
            ),
            (
                6_311_500_000_000_000_000_000_000_000,
                607_513_147_118_013_780_436_691,
            ),
        ];
        encloses(&rt, &orbit, &rows);
    }

    #[test]
    fn encloses_at_the_least_constants(rt: HostRuntime) {
        let orbit = Orbit {
            eb: 0,
            m0: -10_000_000_000_000_000_000,
            m1: 0,
        };
        let rows = [
            (
                -6_311_500_000_000_000_000_000_000_000,
                544_021_110_889_369_813_404_748,
            ),
            (
                -3_155_800_000_000_000_000_000_000_000,
                544_021_110_889_369_813_404_748,
            ),
            (0, 544_021_110_889_369_813_404_748),
            (
                3_155_800_000_000_000_000_000_000_000,
                544_021_110_889_369_813_404_748,
            ),
            (
                6_311_500_000_000_000_000_000_000_000,
                544_021_110_889_369_813_404_748,
            ),
        ];
        encloses(&rt, &orbit, &rows);
    }
}
