ghost use Rattle.std.specs.Prelude.{ℕ, ℤ, pos, ◌+◌, ◌*◌, ◌^◌, ◌≤◌, ◌+ℤ◌, ◌-ℤ◌, ◌≤ℤ◌};
ghost use Rattle.st_fraction.specs.Fraction.{units};
ghost use Rattle.st_enclosure.specs.Ends.{EndsAtMost};
ghost use Rattle.st_series.specs.Enclosed.{HasSine, HasCosine};
ghost use Rattle.st_sine.specs.Narrow.{AreNarrow};

use st_enclosure::Enc;

/// Enclosures of sine and cosine of twice the angle: `2 s c` and `c c - s s`. A width of `w` grows to at most `4 w + 4`.
pub(crate) fn double(sine: Enc, cosine: Enc) -> (Enc, Enc)
    requires sine_ends { EndsAtMost sine.lo sine.hi (2 * 10 ^ 18) }
    requires cosine_ends { EndsAtMost cosine.lo cosine.hi (2 * 10 ^ 18) }
    ensures sine { (z : ℤ) → HasSine sine.lo sine.hi (units z) → HasCosine cosine.lo cosine.hi (units z) → HasSine result.0.lo result.0.hi (units (z +ℤ z)) }
    ensures cosine { (z : ℤ) → HasSine sine.lo sine.hi (units z) → HasCosine cosine.lo cosine.hi (units z) → HasCosine result.1.lo result.1.hi (units (z +ℤ z)) }
    ensures sine_narrow { (w : ℕ) → w ≤ 10 ^ 8 → AreNarrow w sine.lo sine.hi cosine.lo cosine.hi → (result.0.hi -ℤ result.0.lo) ≤ℤ pos (4 * w + 4) }
    ensures cosine_narrow { (w : ℕ) → w ≤ 10 ^ 8 → AreNarrow w sine.lo sine.hi cosine.lo cosine.hi → (result.1.hi -ℤ result.1.lo) ≤ℤ pos (4 * w + 4) }
{
    let product = sine.mul_unit(cosine);
    let sine_square = sine.mul_unit(sine);
    let cosine_square = cosine.mul_unit(cosine);
    (product.add(product), cosine_square.sub(sine_square))
}
