//! Products and quotients of lines, in whole numbers.

ghost use Rattle.std.specs.Prelude.{◌≡◌, ℤ, ◌↔◌, ◌*◌, ◌^◌, ◌<◌, ◌≤◌, pos, ◌*ℤ◌, ◌≤ℤ◌, unsigned_abs};

/// `x` times `n`, of at most 3·10^28 and 10^9.
pub fn times(x: i128, n: u64) -> i128
    requires x_small { unsigned_abs x ≤ 3 * 10 ^ 28 }
    requires n_small { n ≤ 10 ^ 9 }
    ensures value { result ≡ x *ℤ pos n }
    ensures small { unsigned_abs result ≤ 3 * 10 ^ 37 }
{
    x * i128::from(n)
}

/// The least whole number which, times `span`, is at least `x`.
pub fn least_over(x: i128, span: u64) -> i128
    requires some { 0 < span }
    requires small { unsigned_abs x ≤ 3 * 10 ^ 37 }
    ensures { (rate : ℤ) → x ≤ℤ (rate *ℤ pos span) ↔ result ≤ℤ rate }
{
    -greatest_over(-x, span)
}

/// The greatest whole number which, times `span`, is at most `x`.
pub fn greatest_over(x: i128, span: u64) -> i128
    requires some { 0 < span }
    requires small { unsigned_abs x ≤ 3 * 10 ^ 37 }
    ensures is { (rate : ℤ) → (rate *ℤ pos span) ≤ℤ x ↔ rate ≤ℤ result }
    ensures small { unsigned_abs result ≤ 3 * 10 ^ 37 }
{
    x.div_euclid(i128::from(span))
}
