ghost use Rattle.std.specs.Prelude.{◌≡◌, ℤ, pos, ◌+◌, ◌*◌, ◌^◌, ◌≤◌, ◌+ℤ◌, ◌-ℤ◌, ◌*ℤ◌, ◌≤ℤ◌, unsigned_abs};
ghost use Rattle.st_fraction.specs.Fraction.{Fraction, IsFraction, units, LiesWithin};
ghost use Rattle.st_enclosure.specs.Ends.{EndsAtMost};
ghost use Rattle.st_series.specs.Enclosed.{HasSine};

use st_enclosure::Enc;
use st_series::{cos_within_one, sin_within_one};

/// A quarter of a turn, π/2, to whole units.
const QUARTER: i128 = 1_570_796_326_794_896_619;

/// The units by which a quarter of a turn can put a sine off: `QUARTER` is rounded, and its sine and cosine are known by
/// their small bounds.
const QUARTER_COST: u64 = 54;

/// 2^84 / `QUARTER`: the quarters in 2^32 units, times 2^52.
const RATE: i64 = 12_314_017;

/// Half of 2^52, so that quarters are taken to the nearest.
const HALF: i64 = 0x8_0000_0000_0000;

/// An enclosure of the sine of every angle that `arg` contains, in radians. Whole quarters of a turn are taken off, which
/// exchange sine and cosine, and the series serves what is left, at most about half a quarter.
pub(crate) fn sine_of(arg: Enc) -> Enc
    requires ends { EndsAtMost arg.lo arg.hi (2600 * 10 ^ 18) }
    requires narrow { (arg.hi -ℤ arg.lo) ≤ℤ pos (10 ^ 7) }
    ensures sine { (x : Fraction) → IsFraction x → LiesWithin arg.lo arg.hi x → HasSine result.lo result.hi x }
    ensures narrow { (result.hi -ℤ result.lo) ≤ℤ (pos 2 *ℤ (arg.hi -ℤ arg.lo) +ℤ pos 250000) }
    ensures ends { EndsAtMost result.lo result.hi (2 * 10 ^ 18) }
{
    let quarters = quarters_in(arg.lo);
    let (turns, quarter) = whole_turns(quarters);
    let sine = sine_after(rest_of(arg.lo, quarters), quarter);
    let cost = cost_of(turns, quarter);
    sine.widen(cost).widen(arg.hi - arg.lo)
}

// How many quarters of a turn to take off an angle, found from its size in 2^32 units.
fn quarters_in(angle: i128) -> i64
    requires angle { unsigned_abs angle ≤ 2600 * 10 ^ 18 }
    ensures rest { unsigned_abs (angle -ℤ result *ℤ QUARTER) ≤ 10 ^ 18 }
    ensures few { unsigned_abs result ≤ 1700 }
{
    let coarse = (angle >> 32) as i64;
    (coarse * RATE + HALF) >> 52
}

// What is left of an angle without them.
fn rest_of(angle: i128, quarters: i64) -> i128
    requires angle { unsigned_abs angle ≤ 2600 * 10 ^ 18 }
    requires few { unsigned_abs quarters ≤ 1700 }
    ensures value { result ≡ angle -ℤ quarters *ℤ QUARTER }
{
    angle - quarters as i128 * QUARTER
}

// Quarters as whole turns of four, and 0 to 3 more.
fn whole_turns(quarters: i64) -> (i64, u64)
    requires few { unsigned_abs quarters ≤ 1700 }
    ensures value { quarters ≡ pos 4 *ℤ result.0 +ℤ pos result.1 }
    ensures turns { unsigned_abs result.0 ≤ 500 }
    ensures quarter { result.1 ≤ 3 }
{
    (quarters.div_euclid(4), quarters.rem_euclid(4) as u64)
}

// The sine of `rest`, at most 1, and 0 to 3 quarters of a turn, as if a quarter were exact. So it is the sine of that and
// any whole turns, but for what all their quarters cost.
fn sine_after(rest: i128, quarter: u64) -> Enc
    requires rest { unsigned_abs rest ≤ 10 ^ 18 }
    requires quarter { quarter ≤ 3 }
    ensures sine { (turns : ℤ) → unsigned_abs turns ≤ 500 → HasSine (result.lo -ℤ pos (54 * (4 * unsigned_abs turns + quarter))) (result.hi +ℤ pos (54 * (4 * unsigned_abs turns + quarter))) (units (rest +ℤ (pos 4 *ℤ turns +ℤ pos quarter) *ℤ QUARTER)) }
    ensures narrow { (result.hi -ℤ result.lo) ≤ℤ pos 50 }
    ensures ends { EndsAtMost result.lo result.hi (10 ^ 18 + 50) }
{
    match quarter {
        0 => sin_within_one(rest),
        1 => cos_within_one(rest),
        2 => Enc::point(0).sub(sin_within_one(rest)),
        _ => Enc::point(0).sub(cos_within_one(rest)),
    }
}

// What the quarters cost, those of whole turns and the others.
fn cost_of(turns: i64, quarter: u64) -> i128
    requires turns { unsigned_abs turns ≤ 500 }
    requires quarter { quarter ≤ 3 }
    ensures value { result ≡ pos (54 * (4 * unsigned_abs turns + quarter)) }
    ensures small { result ≤ℤ pos 108162 }
{
    (QUARTER_COST * (4 * turns.unsigned_abs() + quarter)) as i128
}
