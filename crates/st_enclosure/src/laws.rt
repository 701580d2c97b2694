//! The laws of intervals. The functions do nothing: their contracts are the laws.

ghost use Rattle.st_enclosure.specs.Laws.{ProductContains, ProductIsExact, ScaledIsExact};

/// Products of intervals contain the products of what these contain; and what `Enc::mul_unit` and `Enc::times_fraction`
/// promise fixes their answers to the last unit.
pub fn products()
    ensures contain { ProductContains }
    ensures exact { ProductIsExact }
    ensures scaled { ScaledIsExact }
{}
