ghost use Rattle.std.specs.Prelude.{◌≡◌, pos, ◌+◌, ◌*◌, ◌/◌, ◌^◌, ◌≤◌, ◌-ℤ◌, ◌+ℤ◌, ◌*ℤ◌, ◌≤ℤ◌, unsigned_abs, ◌⊎◌};
ghost use Rattle.st_fraction.specs.Fraction.{units};
ghost use Rattle.st_series.specs.Small.{floor_of, rounded_sum, rounded_square, small_sine, small_cosine};
ghost use Rattle.st_series.specs.Enclosed.{HasSine, HasCosine};

use st_enclosure::{Enc, UNIT};

/// What rounding fourteen terms, and leaving out the others, can cost: at most 9/5 units a term after the first, and one
/// for those left out.
const ERROR: i128 = 25;

/// The terms after the first, for angles up to 2 rad and up to 1 rad.
const TURNS: u64 = 13;

const SHORT_TURNS: u64 = 9;

/// The units in one, without a sign.
const UNITS: u128 = 1_000_000_000_000_000_000;

/// 2^123 / 10^18, rounded down.
const RECIPROCAL: u128 = 10_633_823_966_279_326_983;

/// Enclosures of the sine and of the cosine of `x` units, an angle in radians of at most 2·10^18 units, which is 2. They
/// are the small bounds: fourteen terms of the series, each rounded down, and 25 units to both sides.
pub fn sin_cos_small(x: i128) -> (Enc, Enc)
    requires { unsigned_abs x ≤ 2 * 10 ^ 18 }
    ensures sine { HasSine result.0.lo result.0.hi (units x) }
    ensures cosine { HasCosine result.1.lo result.1.hi (units x) }

    ensures sine_low { result.0.lo ≡ small_sine x -ℤ pos 25 }
    ensures sine_high { result.0.hi ≡ small_sine x +ℤ pos 25 }
    ensures cosine_low { result.1.lo ≡ small_cosine x -ℤ pos 25 }
    ensures cosine_high { result.1.hi ≡ small_cosine x +ℤ pos 25 }

    ensures sine_narrow { (result.0.hi -ℤ result.0.lo) ≤ℤ pos 51 }
    ensures cosine_narrow { (result.1.hi -ℤ result.1.lo) ≤ℤ pos 51 }
{
    let square = square_of(x);
    let sine = alternating_sum(x, square, 1, TURNS);
    let cosine = alternating_sum(UNIT, square, 0, TURNS);
    (
        Enc::point(sine).widen(ERROR),
        Enc::point(cosine).widen(ERROR),
    )
}

/// An enclosure of the sine of `x` units, an angle of at most 1 rad, for which ten terms suffice.
pub fn sin_within_one(x: i128) -> Enc
    requires { unsigned_abs x ≤ 10 ^ 18 }
    ensures sine { HasSine result.lo result.hi (units x) }
    ensures width { result.hi ≡ result.lo +ℤ pos 50 }
{
    let square = square_of(x);
    let sum = alternating_sum(x, square, 1, SHORT_TURNS);
    Enc::point(sum).widen(ERROR)
}

/// An enclosure of the cosine of `x` units, an angle of at most 1 rad.
pub fn cos_within_one(x: i128) -> Enc
    requires { unsigned_abs x ≤ 10 ^ 18 }
    ensures cosine { HasCosine result.lo result.hi (units x) }
    ensures width { result.hi ≡ result.lo +ℤ pos 50 }
{
    let square = square_of(x);
    let sum = alternating_sum(UNIT, square, 0, SHORT_TURNS);
    Enc::point(sum).widen(ERROR)
}

fn square_of(x: i128) -> i128
    requires { unsigned_abs x ≤ 2 * 10 ^ 18 }
    ensures value { result ≡ rounded_square x }
    ensures low { pos 0 ≤ℤ result }
    ensures high { result ≤ℤ pos (4 * 10 ^ 18) }
{
    whole_units((x * x) as u128) as i128
}

// The alternating sum of the first term, which has the given degree, and of so many more, an odd number.
fn alternating_sum(first: i128, square: i128, degree: u64, turns: u64) -> i128
    requires degree { degree ≤ 1 }
    requires turns { (turns ≡ 9) ⊎ (turns ≡ 13) }
    requires first { unsigned_abs first ≤ (degree + 1) * 10 ^ 18 }
    requires square_low { pos 0 ≤ℤ square }
    requires square_high { square ≤ℤ pos (4 * 10 ^ 18) }
    ensures value { result ≡ rounded_sum first square degree turns }
    ensures small { unsigned_abs result ≤ 28 * 10 ^ 18 }
{
    let mut term = first;
    // The sum so far, with the sign turned at each term.
    let mut sum = first;
    for i in 0..turns {
        let reached = 2 * i + degree;
        term = next_term(term, square, ((reached + 1) * (reached + 2)) as i128);
        sum = term - sum;
    }
    -sum
}

// The next term, without its sign.
fn next_term(term: i128, square: i128, divisor: i128) -> i128
    requires term { unsigned_abs term ≤ 2 * 10 ^ 18 }
    requires square_low { pos 0 ≤ℤ square }
    requires square_high { square ≤ℤ pos (4 * 10 ^ 18) }
    requires divisor_low { pos 1 ≤ℤ divisor }
    requires divisor_high { divisor ≤ℤ pos 1000 }
    requires product { unsigned_abs term * unsigned_abs square ≤ 2 * 10 ^ 36 * unsigned_abs divisor }
    ensures value { result ≡ floor_of (term *ℤ square) (10 ^ 18 * unsigned_abs divisor) }
    ensures small { unsigned_abs result ≤ 2 * 10 ^ 18 }
{
    let product = term * square;
    if product < 0 {
        -1 - quotient((-1 - product) as u128, divisor)
    } else {
        quotient(product as u128, divisor)
    }
}

// A product of units divided by so many, rounded down, in two steps.
fn quotient(product: u128, divisor: i128) -> i128
    requires product { product ≤ 8 * 10 ^ 36 }
    requires divisor_low { pos 1 ≤ℤ divisor }
    requires divisor_high { divisor ≤ℤ pos 1000 }
    ensures value { result ≡ pos (product / (10 ^ 18 * unsigned_abs divisor)) }
{
    (whole_units(product) / divisor as u64) as i128
}

// The whole units in a product of units: a product by the reciprocal, which is at most one short, in place of a division of
// 128 bits.
fn whole_units(product: u128) -> u64
    requires product { product ≤ 8 * 10 ^ 36 }
    ensures value { result ≡ product / 10 ^ 18 }
{
    let coarse = (product >> 59) as u64;
    let estimate = ((coarse as u128 * RECIPROCAL) >> 64) as u64;
    let rest = product - estimate as u128 * UNITS;
    if rest < UNITS { estimate } else { estimate + 1 }
}

#[cfg(test)]
mod tests {
    use super::*;

    // A unit is 10^12 parts of 10^-30.
    const PARTS: i128 = 1_000_000_000_000;

    // Angles in units, and their sines and cosines to thirty decimals by mpmath at sixty digits.
    const ANGLES: [(i128, i128, i128); 10] = [
        (
            -2_000_000_000_000_000_000,
            -909_297_426_825_681_695_396_019_865_912,
            -416_146_836_547_142_386_997_568_229_501,
        ),
        (
            -1_570_796_326_794_896_619,
            -1_000_000_000_000_000_000_000_000_000_000,
            231_321_691_640,
        ),
        (
            -1_000_000_000_000_000_000,
            -841_470_984_807_896_506_652_502_321_630,
            540_302_305_868_139_717_400_936_607_443,
        ),
        (
            -999_999_937,
            -999_999_936_999_999_999_833,
            999_999_999_999_999_999_500_000_063_000,
        ),
        (
            -1,
            -1_000_000_000_000,
            1_000_000_000_000_000_000_000_000_000_000,
        ),
        (
            1,
            1_000_000_000_000,
            1_000_000_000_000_000_000_000_000_000_000,
        ),
        (
            1_000_000_007,
            1_000_000_006_999_999_999_833,
            999_999_999_999_999_999_499_999_993_000,
        ),
        (
            523_598_775_598_298_873,
            499_999_999_999_999_999_933_223_179_531,
            866_025_403_784_438_646_802_276_786_026,
        ),
        (
            1_000_000_000_000_000_000,
            841_470_984_807_896_506_652_502_321_630,
            540_302_305_868_139_717_400_936_607_443,
        ),
        (
            2_000_000_000_000_000_000,
            909_297_426_825_681_695_396_019_865_912,
            -416_146_836_547_142_386_997_568_229_501,
        ),
    ];

    fn holds(found: Enc, value: i128) -> bool {
        found.lo <= value.div_euclid(PARTS) && value.div_euclid(PARTS) < found.hi
    }

    #[test]
    fn encloses_sine_and_cosine(rt: HostRuntime) {
        for (x, sine, cosine) in ANGLES {
            assert!(rt; -2 * UNIT <= x && x <= 2 * UNIT);
            let (s, c) = sin_cos_small(x);
            assert!(rt; holds(s, sine) && holds(c, cosine));
            if -UNIT <= x && x <= UNIT {
                assert!(rt; holds(sin_within_one(x), sine) && holds(cos_within_one(x), cosine));
            }
        }
    }

    // The answers are fixed to the last unit. At -1 the terms are rounded down, away from zero.
    #[test]
    fn gives_the_small_bounds(rt: HostRuntime) {
        let (sine, cosine) = sin_cos_small(0);
        assert_eq!(rt; sine, Enc { lo: -25, hi: 25 });
        assert_eq!(rt;
            cosine,
            Enc {
                lo: UNIT - 25,
                hi: UNIT + 25
            }
        );
        let (sine, cosine) = sin_cos_small(-UNIT);
        assert_eq!(rt;
            sine,
            Enc {
                lo: -841_470_984_807_896_531,
                hi: -841_470_984_807_896_481
            }
        );
        assert_eq!(rt;
            cosine,
            Enc {
                lo: 540_302_305_868_139_692,
                hi: 540_302_305_868_139_742
            }
        );
    }
}
