//! Rows: the small bounds of an angle, and doubling.

ghost use Rattle.std.specs.Prelude.{◌≡◌, ◌↔◌, IsTrue, ℕ, pos, ◌+◌, ◌*◌, ◌^◌, ◌≤◌, ◌-ℤ◌, ◌≤ℤ◌, unsigned_abs};
ghost use Rattle.st_enclosure.specs.Ends.{EndsAtMost};
ghost use Rattle.st_enclosure.specs.Interval.{interval, ◌*ᵢ◌, Contains};
ghost use Rattle.st_sine.specs.Narrow.{AreNarrow};
ghost use Rattle.st_certs.specs.Sound as sound;
ghost use Rattle.st_certs.specs.Steps.{seen};

use crate::certificate::Row;
use st_enclosure::{Enc, Interval};
use st_series::sin_cos_small;

/// What lies between two ends that are in order.
pub(crate) fn enclosure(ends: Interval) -> Enc
    requires { ends.lo ≤ℤ ends.hi }
    ensures { seen result ≡ ends }
{
    Enc {
        lo: ends.lo,
        hi: ends.hi,
    }
}

/// The ends of an enclosure.
pub(crate) fn ends_of(value: Enc) -> Interval
    ensures { result ≡ seen value }
{
    Interval {
        lo: value.lo,
        hi: value.hi,
    }
}

/// The product of two intervals, whose ends are at most 2 in magnitude.
fn product(a: Enc, b: Enc) -> Enc
    requires a_ends { EndsAtMost a.lo a.hi (2 * 10 ^ 18) }
    requires b_ends { EndsAtMost b.lo b.hi (2 * 10 ^ 18) }
    ensures value { seen result ≡ seen a *ᵢ seen b }
    ensures ends { EndsAtMost result.lo result.hi (4 * 10 ^ 18 + 1) }
    ensures narrow { (w : ℕ) → w ≤ 10 ^ 8 → AreNarrow w a.lo a.hi b.lo b.hi → (result.hi -ℤ result.lo) ≤ℤ pos (2 * w + 2) }
{
    a.mul_unit(b)
}

/// The row of twice the angle, by `2 s c` and `c c - s s`. Rows that are `w` units wide give one of `4 w + 4`.
pub(crate) fn doubled(row: Row) -> Row
    requires { sound.IsRow row }
    ensures value { result ≡ sound.doubled row }
    ensures sine_narrow { (w : ℕ) → w ≤ 10 ^ 8 → AreNarrow w row.sine.lo row.sine.hi row.cosine.lo row.cosine.hi → (result.sine.hi -ℤ result.sine.lo) ≤ℤ pos (4 * w + 4) }
    ensures cosine_narrow { (w : ℕ) → w ≤ 10 ^ 8 → AreNarrow w row.sine.lo row.sine.hi row.cosine.lo row.cosine.hi → (result.cosine.hi -ℤ result.cosine.lo) ≤ℤ pos (4 * w + 4) }
    ensures sine_order { result.sine.lo ≤ℤ result.sine.hi }
    ensures cosine_order { result.cosine.lo ≤ℤ result.cosine.hi }
{
    let sine = enclosure(row.sine);
    let cosine = enclosure(row.cosine);
    let both = product(sine, cosine);
    let cosine_square = product(cosine, cosine);
    let sine_square = product(sine, sine);
    Row {
        sine: ends_of(both.add(both)),
        cosine: ends_of(cosine_square.sub(sine_square)),
    }
}

/// The small bounds of an angle of at most 2 rad.
pub(crate) fn small(x: i128) -> Row
    requires { unsigned_abs x ≤ 2 * 10 ^ 18 }
    ensures { result ≡ sound.small_row x }
{
    let (sine, cosine) = sin_cos_small(x);
    Row {
        sine: ends_of(sine),
        cosine: ends_of(cosine),
    }
}

/// Whether a row contains another one.
pub(crate) fn has_row(row: Row, other: Row) -> bool
    ensures { IsTrue result ↔ sound.HasRow row other }
{
    contains(row.sine, other.sine) && contains(row.cosine, other.cosine)
}

fn contains(a: Interval, b: Interval) -> bool
    ensures { IsTrue result ↔ Contains a b }
{
    a.lo <= b.lo && b.hi <= a.hi
}
