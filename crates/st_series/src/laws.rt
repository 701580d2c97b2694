//! The laws of the partial sums. Each function does nothing: its contract is the law, for all fractions and all n.

ghost use Rattle.st_series.specs.Laws.{SineOverOne, CosineOverOne, AtZero, AtOne, SineSandwich, CosineSandwich, LongEnoughStays, SineInOrder, CosineInOrder, Vanishing, LongEnoughExists, SineNarrow, CosineNarrow, SineAgrees, CosineAgrees, SineAddition, CosineAddition, SineBound, CosineBound, SineLipschitz, CosineLipschitz};

/// What the partial sums are: one numerator over one denominator, and their values at 0, and at 1 the first three.
pub fn partial_sums()
    ensures sine_over_one { SineOverOne }
    ensures cosine_over_one { CosineOverOne }
    ensures at_zero { AtZero }
    ensures at_one { AtOne }
{}

/// Sandwich: from a long enough n on, `L_n(x)` rises and `U_n(x)` falls, and no `L` is above a `U`. Vanishing: the terms
/// of the series fall below every fraction above 0, so the ends come as near to each other as one likes.
pub fn sandwich()
    ensures sine { SineSandwich }
    ensures cosine { CosineSandwich }
    ensures stays { LongEnoughStays }
    ensures sine_in_order { SineInOrder }
    ensures cosine_in_order { CosineInOrder }
    ensures vanishing { Vanishing }
{}

/// Sine and cosine have one value each: some n is long enough, its ends are no farther apart than the first term that
/// is left out between them, and what is at least a and at most b has `a <= b`.
pub fn one_value()
    ensures long_enough_exists { LongEnoughExists }
    ensures sine_narrow { SineNarrow }
    ensures cosine_narrow { CosineNarrow }
    ensures sine_agrees { SineAgrees }
    ensures cosine_agrees { CosineAgrees }
{}

/// The addition laws: `S_n(x + y)` and `S_n(x) C_n(y) + C_n(x) S_n(y)` differ by at most twice the first term that they
/// leave out, where `n + 1` is at least `|x| + |y|`; and likewise for the cosine. Doubling is the case of x and x.
pub fn addition()
    ensures sine { SineAddition }
    ensures cosine { CosineAddition }
{}

/// Bound by one: no long enough `L_n(x)` is above 1, and no long enough `U_n(x)` below -1, for sine and cosine.
pub fn bound_by_one()
    ensures sine { SineBound }
    ensures cosine { CosineBound }
{}

/// Lipschitz: `L_n(x) - U_n(y)` is at most `|x - y|`, for sine and cosine, where n is long enough for x and for y. So
/// what bounds the sine of one angle bounds that of another, once it is widened by their distance.
pub fn lipschitz()
    ensures sine { SineLipschitz }
    ensures cosine { CosineLipschitz }
{}
