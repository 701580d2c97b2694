//! A magnitude and its sign.

ghost use Rattle.std.specs.Prelude.{◌≡◌, ◌<◌, ◌^◌};
ghost use Rattle.st_decimal.specs.Value as spec;
ghost use Rattle.st_decimal.specs.ScalingMachine.{with_sign_of};

/// A magnitude below 2^127, with a `-` or without one.
pub fn signed(negative: bool, size: u128) -> i128
    requires { size < 2 ^ 127 }
    ensures { result ≡ spec.signed negative size }
{
    if negative {
        -(size as i128)
    } else {
        size as i128
    }
}

/// A magnitude below 2^127 with the sign of another number.
pub fn signed_like(n: i128, size: u128) -> i128
    requires { size < 2 ^ 127 }
    ensures { result ≡ with_sign_of n size }
{
    signed(n < 0, size)
}
