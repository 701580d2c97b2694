//! The pieces of a number's text.

ghost use Rattle.std.specs.Prelude.{◌≡◌};
ghost use Rattle.st_decimal.specs.Value as value;
ghost use Rattle.st_decimal.specs.NumberMachine as machine;
ghost use Rattle.st_decimal.specs.NumberMachine.{pieces_of};

use st_text::split_digits;

/// What the value of a number needs of its text.
#[derive(Clone, Copy, Debug)]
pub struct Pieces<'a> {
    pub negative: bool,
    /// The digits before the point.
    pub whole: &'a [u8],
    /// The digits after the point.
    pub decimals: &'a [u8],
    pub exponent_negative: bool,
    /// The digits of the exponent, none where there is no exponent.
    pub exponent: &'a [u8],
}

/// Splits the text of a number.
#[tactic(auto, unfolding(crate::specs::NumberMachine::pieces_of))]
pub fn split(text: &[u8]) -> Pieces<'_>
    ensures minus { result.negative ≡ (pieces_of text.now).minus }
    ensures whole { result.whole.now ≡ (pieces_of text.now).whole }
    ensures decimals { result.decimals.now ≡ (pieces_of text.now).decimals }
    ensures exponent_minus { result.exponent_negative ≡ (pieces_of text.now).exponent_minus }
    ensures exponent { result.exponent.now ≡ (pieces_of text.now).exponent }
{
    let (whole, after) = split_digits(behind_sign(text));
    let (decimals, rest) = split_decimals(after);
    let raised = behind_mark(rest);
    Pieces {
        negative: is_minus(text),
        whole,
        decimals,
        exponent_negative: is_minus(raised),
        exponent: behind_sign(raised),
    }
}

/// Whether a text begins with `-`.
fn is_minus(text: &[u8]) -> bool
    ensures { result ≡ value.is_minus text.now }
{
    match text {
        [first, ..] => *first == b'-',
        [] => false,
    }
}

/// The text without the sign at its beginning, where it has one there.
fn behind_sign(text: &[u8]) -> &[u8]
    ensures { result.now ≡ machine.behind_sign text.now }
{
    match text {
        [b'+' | b'-', rest @ ..] => rest,
        _ => text,
    }
}

/// The digits after the point at the beginning of a text, and what follows them.
fn split_decimals(text: &[u8]) -> (&[u8], &[u8])
    ensures digits { result.0.now ≡ machine.decimals_in text.now }
    ensures rest { result.1.now ≡ machine.behind_decimals text.now }
{
    match text {
        [b'.', behind @ ..] => split_digits(behind),
        _ => (&text[..0], text),
    }
}

/// The text without its first byte.
fn behind_mark(text: &[u8]) -> &[u8]
    ensures { result.now ≡ machine.behind_mark text.now }
{
    match text {
        [_, rest @ ..] => rest,
        [] => text,
    }
}
