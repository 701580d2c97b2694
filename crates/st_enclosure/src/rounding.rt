ghost use Rattle.std.specs.Prelude.{◌≡◌, pos, neg_ℤ, ◌+◌, ◌*◌, ◌^◌, ◌≤◌, ◌+ℤ◌, ◌-ℤ◌, ◌*ℤ◌, ◌≤ℤ◌, ◌<ℤ◌, unsigned_abs};
ghost use Rattle.st_enclosure.specs.Ends.{IsOneOf};

/// The units in one: an enclosure's ends count 10^-18.
pub const UNIT: i128 = 1_000_000_000_000_000_000;

// The greatest whole number at most x / UNIT.
pub(crate) fn floor_unit(x: i128) -> i128
    requires low { neg_ℤ (pos (10 ^ 38)) ≤ℤ x }
    requires high { x ≤ℤ pos (10 ^ 38) }
    ensures below { (result *ℤ UNIT) ≤ℤ x }
    ensures above { x <ℤ ((result +ℤ pos 1) *ℤ UNIT) }
{
    x.div_euclid(UNIT)
}

// The least whole number at least x / UNIT.
pub(crate) fn ceil_unit(x: i128) -> i128
    requires low { neg_ℤ (pos (10 ^ 38)) ≤ℤ x }
    requires high { x ≤ℤ pos (10 ^ 38) }
    ensures above { x ≤ℤ (result *ℤ UNIT) }
    ensures below { ((result -ℤ pos 1) *ℤ UNIT) <ℤ x }
{
    -(-x).div_euclid(UNIT)
}

pub(crate) fn product(x: i128, y: i128) -> i128
    requires x_small { unsigned_abs x ≤ 4 * 10 ^ 18 }
    requires y_small { unsigned_abs y ≤ 4 * 10 ^ 18 }
    ensures value { result ≡ x *ℤ y }
    ensures low { neg_ℤ (pos (16 * 10 ^ 36)) ≤ℤ result }
    ensures high { result ≤ℤ pos (16 * 10 ^ 36) }
{
    x * y
}

pub(crate) fn least(a: i128, b: i128, c: i128, d: i128) -> i128
    ensures at_most_a { result ≤ℤ a }
    ensures at_most_b { result ≤ℤ b }
    ensures at_most_c { result ≤ℤ c }
    ensures at_most_d { result ≤ℤ d }
    ensures reached { IsOneOf a b c d result }
{
    let x = if a < b { a } else { b };
    let y = if c < d { c } else { d };
    if x < y { x } else { y }
}

pub(crate) fn greatest(a: i128, b: i128, c: i128, d: i128) -> i128
    ensures at_least_a { a ≤ℤ result }
    ensures at_least_b { b ≤ℤ result }
    ensures at_least_c { c ≤ℤ result }
    ensures at_least_d { d ≤ℤ result }
    ensures reached { IsOneOf a b c d result }
{
    let x = if a < b { b } else { a };
    let y = if c < d { d } else { c };
    if x < y { y } else { x }
}

// The greatest whole number at most e num / den. The product e num may be too large for 128 bits, so e is divided first.
pub(crate) fn floor_scaled(e: i128, num: i128, den: i128) -> i128
    requires den_low { pos 1 ≤ℤ den }
    requires den_high { den ≤ℤ pos (10 ^ 18) }
    requires num_small { unsigned_abs num ≤ 10 ^ 18 }
    requires fits { unsigned_abs e * unsigned_abs num ≤ 10 ^ 37 * unsigned_abs den }
    ensures below { (result *ℤ den) ≤ℤ (e *ℤ num) }
    ensures above { (e *ℤ num) <ℤ ((result +ℤ pos 1) *ℤ den) }
    ensures small { unsigned_abs result ≤ 2 * 10 ^ 37 }
{
    let whole = e.div_euclid(den);
    let rest = e.rem_euclid(den);
    whole * num + (rest * num).div_euclid(den)
}

// The least whole number at least e num / den.
pub(crate) fn ceil_scaled(e: i128, num: i128, den: i128) -> i128
    requires den_low { pos 1 ≤ℤ den }
    requires den_high { den ≤ℤ pos (10 ^ 18) }
    requires num_small { unsigned_abs num ≤ 10 ^ 18 }
    requires fits { unsigned_abs e * unsigned_abs num ≤ 10 ^ 37 * unsigned_abs den }
    ensures above { (e *ℤ num) ≤ℤ (result *ℤ den) }
    ensures below { ((result -ℤ pos 1) *ℤ den) <ℤ (e *ℤ num) }
{
    -floor_scaled(e, -num, den)
}
