//! The laws of the sine in the formula. The functions do nothing: their contracts are the laws.

ghost use Rattle.st_sine.specs.Laws.{AnomalyNarrows, AnomalyAgrees, AnomalyBySines, AnomalyLipschitz, AnomalyMoves, CosineDoubles, SineDoubles, SineMoves};

/// The sine in the formula has one value: some `n` fits, its two bounds come as near to each other as one likes, and what
/// is at least a and at most b has `a <= b`.
pub fn one_value()
    ensures narrows { AnomalyNarrows }
    ensures agrees { AnomalyAgrees }
{}

/// The sine in the formula moves with `t` by at most `M1 (1 + EB)` times as much, whichever `n` the bounds are taken at.
pub fn lipschitz()
    ensures lipschitz { AnomalyLipschitz }
    ensures moves { AnomalyMoves }
{}

/// From the sine and the cosine of an angle to those of twice the angle, by the addition laws.
pub fn doubling()
    ensures sine { SineDoubles }
    ensures cosine { CosineDoubles }
{}

/// No two sines are farther apart than their angles.
pub fn nearness()
    ensures { SineMoves }
{}

/// From the sines of M and of what is near E to the sine in the formula.
pub fn two_sines()
    ensures { AnomalyBySines }
{}
