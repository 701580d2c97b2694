//! From one scale to another.

ghost use Rattle.std.specs.Prelude.{◌≡◌, pos, ◌+◌, ◌*◌, ◌^◌, ◌≤◌, ◌+ℤ◌, ◌-ℤ◌, ◌≤ℤ◌, unsigned_abs};
ghost use Rattle.st_fraction.specs.Fraction.{Fraction, IsFraction, units, LiesWithin};
ghost use Rattle.st_enclosure.specs.Ends.{EndsAtMost};
ghost use Rattle.st_scales.specs.Tdb.{TdbIsAtLeast, TdbIsAtMost, TtIsAtLeast, TtIsAtMost};
ghost use Rattle.st_scales.specs.Route.{HasValue, HasNoSineOnIt, shift};

use crate::deltet::Deltet;
use crate::scale::Scale;
use st_enclosure::{Enc, UNIT};
use st_sine::anomaly_sine;

/// An enclosure of the value in the scale `to` of each time in the scale `from` that `r` contains, in
/// units of 10^-18 s past J2000.
///
/// `r` is at most 1,000 units wide, and its ends are at most 6,311,391,500 s in magnitude. Where no
/// sine stands on the way the ends are shifted, and else the answer is at most 1,000 units wider
/// than `r`. Each end lies within 101 s of the same end of `r`.
pub fn convert(c: &Deltet, r: Enc, from: Scale, to: Scale) -> Enc
    requires ends { EndsAtMost r.lo r.hi (6311391500 * 10 ^ 18) }
    requires narrow { (r.hi -ℤ r.lo) ≤ℤ pos 1000 }
    ensures contains { (x : Fraction) → IsFraction x → LiesWithin r.lo r.hi x → HasValue c.now from to result.lo result.hi x }
    ensures exact { HasNoSineOnIt c.now from to → (result.lo ≡ r.lo +ℤ shift c.now from to) × (result.hi ≡ r.hi +ℤ shift c.now from to) }
    ensures narrow { (result.hi -ℤ result.lo) ≤ℤ (r.hi -ℤ r.lo +ℤ pos 1000) }
    ensures low_near { unsigned_abs (result.lo -ℤ r.lo) ≤ 101 * 10 ^ 18 }
    ensures high_near { unsigned_abs (result.hi -ℤ r.hi) ≤ 101 * 10 ^ 18 }
{
    match (from, to) {
        (Scale::Tai, Scale::Tt) => r.add(Enc::point(c.delta_ta())),
        (Scale::Tai, Scale::Tdb) => tdb_of(c, r.add(Enc::point(c.delta_ta()))),
        (Scale::Tt, Scale::Tai) => r.sub(Enc::point(c.delta_ta())),
        (Scale::Tt, Scale::Tdb) => tdb_of(c, r),
        (Scale::Tdb, Scale::Tai) => tt_of(c, r).sub(Enc::point(c.delta_ta())),
        (Scale::Tdb, Scale::Tt) => tt_of(c, r),
        (Scale::Tai, Scale::Tai) | (Scale::Tt, Scale::Tt) | (Scale::Tdb, Scale::Tdb) => r,
    }
}

/// TDB of one TT value.
fn tdb_at(c: &Deltet, t: i128) -> Enc
    requires { unsigned_abs t ≤ 6311492000 * 10 ^ 18 }
    ensures at_least { TdbIsAtLeast c.now (units t) (units result.lo) }
    ensures at_most { TdbIsAtMost c.now (units t) (units result.hi) }
    ensures narrow { (result.hi -ℤ result.lo) ≤ℤ pos 601 }
    ensures near { EndsAtMost (result.lo -ℤ t) (result.hi -ℤ t) (4 * 10 ^ 15) }
{
    let sine = anomaly_sine(&c.orbit(), t);
    let moved = sine.times_fraction(c.k(), UNIT);
    Enc::point(t).add(moved)
}

/// TDB of TT. The sine moves by less than a unit over the width of `r`, so one sine will do.
fn tdb_of(c: &Deltet, r: Enc) -> Enc
    requires ends { EndsAtMost r.lo r.hi (6311391600 * 10 ^ 18) }
    requires narrow { (r.hi -ℤ r.lo) ≤ℤ pos 1000 }
    ensures at_least { (x : Fraction) → IsFraction x → LiesWithin r.lo r.hi x → TdbIsAtLeast c.now x (units result.lo) }
    ensures at_most { (x : Fraction) → IsFraction x → LiesWithin r.lo r.hi x → TdbIsAtMost c.now x (units result.hi) }
    ensures exact { c.now.k ≡ pos 0 → (result.lo ≡ r.lo) × (result.hi ≡ r.hi) }
    ensures narrow { (result.hi -ℤ result.lo) ≤ℤ (r.hi -ℤ r.lo +ℤ pos 1000) }
    ensures low_near { unsigned_abs (result.lo -ℤ r.lo) ≤ 10 ^ 16 }
    ensures high_near { unsigned_abs (result.hi -ℤ r.hi) ≤ 10 ^ 16 }
{
    if c.k() == 0 {
        return r;
    }
    let first = tdb_at(c, r.lo);
    first.add(Enc {
        lo: 0,
        hi: r.hi - r.lo + 1,
    })
}

/// TT of TDB. A first sine gives a TT value that lies within a few picoseconds, and a second one how
/// far it is from the ends.
fn tt_of(c: &Deltet, r: Enc) -> Enc
    requires ends { EndsAtMost r.lo r.hi (6311391600 * 10 ^ 18) }
    requires narrow { (r.hi -ℤ r.lo) ≤ℤ pos 1000 }
    ensures at_least { (x : Fraction) → IsFraction x → LiesWithin r.lo r.hi x → TtIsAtLeast c.now x (units result.lo) }
    ensures at_most { (x : Fraction) → IsFraction x → LiesWithin r.lo r.hi x → TtIsAtMost c.now x (units result.hi) }
    ensures exact { c.now.k ≡ pos 0 → (result.lo ≡ r.lo) × (result.hi ≡ r.hi) }
    ensures narrow { (result.hi -ℤ result.lo) ≤ℤ (r.hi -ℤ r.lo +ℤ pos 1000) }
    ensures low_near { unsigned_abs (result.lo -ℤ r.lo) ≤ 10 ^ 16 }
    ensures high_near { unsigned_abs (result.hi -ℤ r.hi) ≤ 10 ^ 16 }
{
    if c.k() == 0 {
        return r;
    }
    let first = tdb_at(c, r.lo);
    let t = mirrored(r.lo, first.lo);
    let found = tdb_at(c, t);
    ends_from(t, found, r)
}

/// As far from `x` as `y`, on the other side.
fn mirrored(x: i128, y: i128) -> i128
    requires x { unsigned_abs x ≤ 10 ^ 36 }
    requires y { unsigned_abs y ≤ 10 ^ 36 }
    ensures value { result ≡ x +ℤ (x -ℤ y) }
{
    x + (x - y)
}

/// The TT values that lie from `t` as far as `r` lies from `found`, the TDB of `t`; and a unit more to
/// either side.
fn ends_from(t: i128, found: Enc, r: Enc) -> Enc
    requires t { unsigned_abs t ≤ 10 ^ 36 }
    requires found { EndsAtMost found.lo found.hi (10 ^ 36) }
    requires r { EndsAtMost r.lo r.hi (10 ^ 36) }
    ensures low { result.lo ≡ t -ℤ (found.hi -ℤ r.lo) -ℤ pos 1 }
    ensures high { result.hi ≡ t +ℤ (r.hi -ℤ found.lo) +ℤ pos 1 }
{
    Enc::point(t).sub(found).add(r).widen(1)
}

#[cfg(test)]
mod tests {
    use super::*;
    use st_decimal::Dec;
    use std::process::Abort;

    // A unit is 10^6 parts of 10^-24 s.
    const PARTS: i128 = 1_000_000;

    const LATEST: i128 = 6_311_391_400 * UNIT;

    const FARTHEST: i128 = 6_311_391_500 * UNIT;

    // Each row has a time t; TDB of the TT value t, less t; and TT of the TDB value t, less t: in parts of 10^-24 s, by mpmath
    // at ninety digits.

    // Times in the range, at its ends and a little beyond, at the constants of the usual leapseconds kernel.
    const USUAL: [(i128, i128, i128); 27] = [
        (
            -6_311_391_400_000_000_000_000_000_000,
            26_267_778_713_104_786_733,
            -26_267_778_704_295_272_890,
        ),
        (
            -6_311_390_400_000_000_000_000_000_000,
            26_603_151_548_397_856_659,
            -26_603_151_539_475_896_967,
        ),
        (
            -5_364_662_400_000_000_000_000_000_001,
            18_219_704_646_539_807_577,
            -18_219_704_640_428_998_743,
        ),
        (
            -4_733_510_400_123_456_789_012_345_678,
            12_630_421_908_152_921_237,
            -12_630_421_903_916_598_112,
        ),
        (
            -3_786_825_600_000_000_000_000_000_000,
            -10_243_561_209_895_322_446,
            10_243_561_206_459_532_740,
        ),
        (
            -3_155_717_900_000_000_000_000_000_000,
            -30_690_272_466_817_429_148,
            30_690_272_456_525_208_392,
        ),
        (
            -3_155_716_800_000_000_000_000_000_000,
            -30_321_378_170_629_180_122,
            30_321_378_160_460_628_573,
        ),
        (
            -2_208_988_800_000_000_000_000_000_001,
            -38_703_756_440_817_279_727,
            38_703_756_427_839_010_833,
        ),
        (
            -1_000_000_006_999_999_999_876_543_211,
            1_546_798_170_127_141_278_187,
            -1_546_798_170_309_078_738_345,
        ),
        (
            -86_400_000_000_000_000_000_000,
            -101_675_558_381_164_300_030,
            101_675_558_347_125_954_240,
        ),
        (
            -1_000_000_000_000_000_000,
            -72_737_111_279_055_655_253,
            72_737_111_254_682_340_389,
        ),
        (-1, -72_736_776_191_305_351_982, 72_736_776_166_932_149_181),
        (0, -72_736_776_191_305_351_982, 72_736_776_166_932_149_181),
        (1, -72_736_776_191_305_351_982, 72_736_776_166_932_149_181),
        (
            64_184_000_000_000_000_000,
            -72_715_268_912_806_967_059,
            72_715_268_888_440_956_956,
        ),
        (
            64_183_927_000_000_000_000,
            -72_715_268_937_268_387_125,
            72_715_268_912_902_377_014,
        ),
        (
            100_000_000_000_000_000_000,
            -72_703_267_400_987_622_858,
            72_703_267_376_625_626_436,
        ),
        (
            43_200_000_000_000_000_000_000,
            -58_258_347_556_475_803_075,
            58_258_347_536_947_282_739,
        ),
        (
            157_680_000_999_999_999_999_999_999,
            -110_299_597_781_646_996_483,
            110_299_597_744_734_082_476,
        ),
        (
            536_500_869_184_000_000_000_000_000,
            -70_222_027_915_820_116_635,
            70_222_027_892_288_007_236,
        ),
        (
            788_918_400_000_000_000_000_000_000,
            -86_951_789_474_045_135_506,
            86_951_789_444_920_917_617,
        ),
        (
            1_577_836_800_000_000_000_000_000_000,
            -101_160_286_831_096_238_293,
            101_160_286_797_229_734_818,
        ),
        (
            3_155_716_800_000_000_000_000_000_000,
            -115_103_711_136_197_177_483,
            115_103_711_097_684_268_433,
        ),
        (
            4_260_168_000_987_654_321_000_000_007,
            -146_519_545_551_453_649_887,
            146_519_545_502_504_176_527,
        ),
        (
            5_364_662_400_000_000_000_000_000_000,
            -163_470_561_348_667_112_618,
            163_470_561_294_108_148_150,
        ),
        (
            6_311_390_400_000_000_000_000_000_000,
            -171_811_087_268_724_924_449,
            171_811_087_211_412_238_251,
        ),
        (
            6_311_391_400_000_000_000_000_000_000,
            -171_477_504_023_489_731_782,
            171_477_503_966_287_097_272,
        ),
    ];

    // At the greatest constants, and the least DELTA_T_A.
    const GREATEST: [(i128, i128, i128); 8] = [
        (
            -6_311_391_400_000_000_000_000_000_000,
            -1_927_975_944_388_642_316_022,
            1_927_975_943_976_119_579_389,
        ),
        (
            -3_155_716_800_000_000_000_000_000_000,
            -1_856_771_613_171_002_756_643,
            1_856_771_613_719_099_963_145,
        ),
        (
            -1_234_567_890_000_000_000_987_654_321,
            -44_646_409_424_883_945_843,
            44_646_409_388_461_725_333,
        ),
        (
            0,
            -1_069_719_274_485_664_803_209,
            1_069_719_275_196_610_167_694,
        ),
        (
            7,
            -1_069_719_274_485_664_803_209,
            1_069_719_275_196_610_167_694,
        ),
        (
            1_600_000_000_000_000_000_000_000_000,
            597_884_891_839_059_925_539,
            -597_884_892_286_800_896_589,
        ),
        (
            3_155_717_900_000_000_000_000_000_000,
            113_355_333_477_791_434_937,
            -113_355_333_566_522_190_253,
        ),
        (
            6_311_391_400_000_000_000_000_000_000,
            1_281_837_129_793_654_379_029,
            -1_281_837_130_568_861_779_975,
        ),
    ];

    // At the greatest constants with the least M0.
    const LEAST: [(i128, i128, i128); 8] = [
        (
            -6_311_391_400_000_000_000_000_000_000,
            -1_281_837_129_793_654_379_029,
            1_281_837_130_568_861_779_975,
        ),
        (
            -3_155_716_800_000_000_000_000_000_000,
            -114_216_366_262_985_745_911,
            114_216_366_352_388_338_526,
        ),
        (
            -1_234_567_890_000_000_000_987_654_321,
            -1_857_305_718_934_439_599_343,
            1_857_305_718_378_988_471_993,
        ),
        (
            0,
            1_069_719_274_485_664_803_209,
            -1_069_719_275_196_610_167_694,
        ),
        (
            7,
            1_069_719_274_485_664_803_209,
            -1_069_719_275_196_610_167_694,
        ),
        (
            1_600_000_000_000_000_000_000_000_000,
            1_982_980_734_969_870_726_504,
            -1_982_980_735_175_930_204_645,
        ),
        (
            3_155_717_900_000_000_000_000_000_000,
            1_856_446_730_229_372_542_376,
            -1_856_446_730_777_967_352_849,
        ),
        (
            6_311_391_400_000_000_000_000_000_000,
            1_927_975_944_388_642_316_022,
            -1_927_975_943_976_119_579_389,
        ),
    ];

    fn dec(digits: i128, tens: i32) -> Dec {
        Dec { digits, tens }
    }

    // The constants DELTA_T_A, K, EB, M0 and M1, in units.
    fn constants(rt: &impl Abort, units: [i128; 5]) -> Deltet {
        let [delta_ta, k, eb, m0, m1] = units;
        let found = Deltet::from_numbers(
            &[dec(delta_ta, -18)],
            &[dec(k, -18)],
            &[dec(eb, -18)],
            &[dec(m0, -18), dec(m1, -18)],
        );
        match found {
            Ok(c) => c,
            Err(fault) => panic!(rt; "{fault:?}"),
        }
    }

    // `found` has `t` and the difference, and is as narrow as promised.
    fn encloses(rt: &impl Abort, found: Enc, t: i128, difference: i128) {
        assert!(rt; -LATEST <= t && t <= LATEST);
        let value = t + difference.div_euclid(PARTS);
        assert!(rt; found.lo <= value, "below {t}");
        assert!(rt; value < found.hi, "above {t}");
        assert!(rt; found.hi.saturating_sub(found.lo) <= 1_000, "at {t}");
    }

    fn leads_to(rt: &impl Abort, c: &Deltet, t: i128, from: Scale, to: Scale, wanted: Enc) {
        assert!(rt; -FARTHEST <= t && t <= FARTHEST);
        let found = convert(c, Enc::point(t), from, to);
        assert_eq!(rt; found, wanted, "at {t}");
    }

    fn goes_both_ways(rt: &impl Abort, c: &Deltet, rows: &[(i128, i128, i128)]) {
        for &(t, ahead, behind) in rows {
            assert!(rt; -LATEST <= t && t <= LATEST);
            let point = Enc::point(t);
            let tdb = convert(c, point, Scale::Tt, Scale::Tdb);
            encloses(rt, tdb, t, ahead);
            encloses(rt, convert(c, point, Scale::Tdb, Scale::Tt), t, behind);
            let tai = t.saturating_sub(c.delta_ta());
            leads_to(rt, c, t, Scale::Tt, Scale::Tai, Enc::point(tai));
            leads_to(rt, c, tai, Scale::Tai, Scale::Tt, point);
            leads_to(rt, c, tai, Scale::Tai, Scale::Tdb, tdb);
        }
    }

    #[test]
    fn at_the_usual_constants(rt: HostRuntime) {
        let c = constants(
            &rt,
            [
                32_184_000_000_000_000_000,
                1_657_000_000_000_000,
                16_710_000_000_000_000,
                6_239_996_000_000_000_000,
                199_096_871_000,
            ],
        );
        goes_both_ways(&rt, &c, &USUAL);
    }

    #[test]
    fn at_the_greatest_constants(rt: HostRuntime) {
        let c = constants(
            &rt,
            [
                -100 * UNIT,
                2_000_000_000_000_000,
                20_000_000_000_000_000,
                10 * UNIT,
                400_000_000_000,
            ],
        );
        goes_both_ways(&rt, &c, &GREATEST);
    }

    #[test]
    fn at_the_least_mean_anomaly(rt: HostRuntime) {
        let c = constants(
            &rt,
            [
                100 * UNIT,
                2_000_000_000_000_000,
                20_000_000_000_000_000,
                -10 * UNIT,
                400_000_000_000,
            ],
        );
        goes_both_ways(&rt, &c, &LEAST);
    }

    // Where EB, M0 and M1 are 0, TDB is TT: a value 10^-12 s from a whole second is told from it.
    #[test]
    fn beside_a_whole_second(rt: HostRuntime) {
        let c = constants(
            &rt,
            [32_184_000_000_000_000_000, 1_657_000_000_000_000, 0, 0, 0],
        );
        let bound = 100 * UNIT;
        let below = convert(&c, Enc::point(bound - 1_000_000), Scale::Tt, Scale::Tdb);
        assert!(rt; below.hi < bound);
        let here = convert(&c, Enc::point(bound), Scale::Tt, Scale::Tdb);
        assert!(rt; here.lo <= bound && bound <= here.hi);
        let above = convert(&c, Enc::point(bound + 1_000_000), Scale::Tt, Scale::Tdb);
        assert!(rt; bound <= above.lo);
        let none = constants(
            &rt,
            [
                32_184_000_000_000_000_000,
                0,
                16_710_000_000_000_000,
                6_239_996_000_000_000_000,
                199_096_871_000,
            ],
        );
        assert_eq!(rt;
            convert(&none, Enc::point(bound), Scale::Tt, Scale::Tdb),
            Enc::point(bound)
        );
        assert_eq!(rt;
            convert(&none, Enc::point(bound), Scale::Tdb, Scale::Tai),
            Enc::point(67_816_000_000_000_000_000)
        );
    }
}
