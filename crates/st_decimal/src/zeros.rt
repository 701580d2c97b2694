//! The significant digits of a number that is written in two pieces, before and after the point.

ghost use Rattle.std.specs.Prelude.{◌≡◌, ◌≤◌, ◌++◌, length};
ghost use Rattle.st_decimal.specs.Value as value;

/// The digits before the point and after it, up to the last of them that is not zero.
pub fn without_end_zeros<'a>(whole: &'a [u8], decimals: &'a [u8]) -> (&'a [u8], &'a [u8])
    ensures { result.0.now ++ result.1.now ≡ value.without_end_zeros (whole.now ++ decimals.now) }
{
    if are_zeros(decimals) {
        (trim_zeros(whole), &decimals[..0])
    } else {
        (whole, trim_zeros(decimals))
    }
}

/// The digits before the point and after it, from the first of them on that is not zero.
pub fn skip_zeros<'a>(whole: &'a [u8], decimals: &'a [u8]) -> (&'a [u8], &'a [u8])
    ensures { result.0.now ++ result.1.now ≡ value.skip_zeros (whole.now ++ decimals.now) }
{
    if are_zeros(whole) {
        (&whole[..0], drop_zeros(decimals))
    } else {
        (drop_zeros(whole), decimals)
    }
}

/// Whether every digit is zero.
fn are_zeros(digits: &[u8]) -> bool
    ensures { result ≡ value.are_zeros digits.now }
{
    digits.iter().all(|&digit| digit == b'0')
}

/// The digits from the first on that is not zero.
pub fn drop_zeros(digits: &[u8]) -> &[u8]
    ensures { result.now ≡ value.skip_zeros digits.now }
{
    let mut rest = digits;
    while let [b'0', after @ ..] = rest {
        rest = after;
    }
    rest
}

/// The digits up to the last that is not zero.
fn trim_zeros(digits: &[u8]) -> &[u8]
    ensures { result.now ≡ value.without_end_zeros digits.now }
{
    let mut rest = digits;
    while let [before @ .., last] = rest {
        if *last != b'0' {
            break;
        }
        rest = before;
    }
    rest
}
