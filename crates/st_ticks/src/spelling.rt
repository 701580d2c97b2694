//! The fields of a printed clock string.

ghost use Rattle.std.specs.Prelude.{◌≡◌, ◌+◌, ◌-◌, ◌≤◌, ◌<◌, ◌^◌, ◌++◌, length, OnOk};
ghost use Rattle.std.specs.List.{All};
ghost use Rattle.st_text.specs.Bytes.{decimal_digits};
ghost use Rattle.st_ticks.specs.Face.{IsField, span, span_of_rest};
ghost use Rattle.st_ticks.specs.SpellingMachine.{fields_text, more_text};
ghost use Rattle.st_ticks.specs.Tick as tick;

use crate::field::Field;
use st_decimal::OutOfMemory;
use st_text::put_padded;

/// How many decimal digits a number has; zero has one.
fn digit_count(number: u64) -> usize
    ensures value { result ≡ length (decimal_digits number) }
    ensures few { result ≤ 20 }
{
    let mut digits = 1;
    let mut rest = number / 10;
    while rest > 0 {
        digits += 1;
        rest /= 10;
    }
    digits
}

/// The digits of the greatest value of a field that does not carry.
fn width(field: &Field) -> usize
    requires some { 1 ≤ field.now.modulus }
    requires modulus { field.now.modulus ≤ 10 ^ 18 }
    requires offset { field.now.offset ≤ 10 ^ 12 }
    ensures value { result ≡ tick.width field.now }
    ensures few { result ≤ 20 }
{
    digit_count(field.offset + field.modulus - 1)
}

/// Appends the fields of a count, with the delimiter between them.
#[tactic(auto, unfolding(crate::specs::SpellingMachine::fields_text))]
pub fn put_fields(
    out: &mut Vec<u8>,
    fields: &[Field],
    delimiter: u8,
    ticks_per_count: u64,
    count: u64,
) -> Result<(), OutOfMemory>
    requires fields { All IsField fields.now }
    requires tpm { ticks_per_count ≡ span_of_rest fields.now }
    requires count { count ≤ 10 ^ 18 }
    ensures { OnOk result (out.new.items ≡ out.old.items ++ fields_text delimiter fields.now count) }
{
    match fields {
        [first, more @ ..] => {
            let value = first.offset + count / ticks_per_count;
            put_padded(out, u128::from(value), width(first))?;
            put_more_fields(
                out,
                more,
                delimiter,
                ticks_per_count,
                count % ticks_per_count,
            )
        }
        [] => Ok(()),
    }
}

/// Appends the fields of a count that stand after others, each with the delimiter before it.
fn put_more_fields(
    out: &mut Vec<u8>,
    fields: &[Field],
    delimiter: u8,
    spans: u64,
    count: u64,
) -> Result<(), OutOfMemory>
    requires fields { All IsField fields.now }
    requires spans { spans ≡ span fields.now }
    requires count { count ≤ 10 ^ 18 }
    ensures { OnOk result (out.new.items ≡ out.old.items ++ more_text delimiter fields.now count) }
{
    let mut span = spans;
    let mut rest = count;
    for field in fields {
        span /= field.modulus;
        let value = field.offset + rest / span;
        out.push(delimiter)?;
        put_padded(out, u128::from(value), width(field))?;
        rest %= span;
    }
    Ok(())
}
