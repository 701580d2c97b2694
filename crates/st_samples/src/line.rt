//! The lines of samples.

ghost use Rattle.std.specs.Prelude.{◌≡◌, ◌<◌, ◌≤◌, ◌*◌, ◌^◌, ◌++◌, ◌∷◌, [], List, ℕ, pos, ◌≤ℤ◌, IfOk, OnOk};
ghost use Rattle.st_dates.specs.Label.{formal, IsPlainLabel};
ghost use Rattle.st_dates.specs.declared.label.Label.{Label as TheLabel};
ghost use Rattle.st_samples.specs.SampleLine as sample;
ghost use Rattle.st_samples.specs.SampleLine.{clock_text, count_of, date_text, letter_t, seconds_text, IsLabelLine};
ghost use Rattle.st_text.specs.Bytes.{decimal_digits, padded};

use crate::generator::{milliseconds, seconds};
use st_dates::{Civil, Label, SECOND, civil_of, label_of};
use st_decimal::{Line, OutOfMemory};
use st_text::put_padded;
use std::alloc::Global;

/// The units of 10^-18 s in a millisecond.
const MILLISECOND: i128 = SECOND / 1_000;

/// The seconds of x past 2000-01-01 12:00:00, with three decimals, as `1471672182.513`.
///
/// # Errors
///
/// Want of memory alone.
pub fn seconds_line(alloc: Global, x: u64) -> Result<Line, OutOfMemory>
    ensures { IfOk result (λ line. line ≡ seconds_text x) }
{
    let mut out = Vec::new(alloc);
    put_padded(&mut out, u128::from(seconds(x)), 1)?;
    out.push(b'.')?;
    put_padded(&mut out, u128::from(milliseconds(x)), 3)?;
    Ok(Line::from_vec(out))
}

/// The label whose formal count is the seconds of x past 2000-01-01 12:00:00, as `2046-08-20T17:49:42.513`.
///
/// Formal seconds are those of NAIF's Time Required Reading: every day counts 86,400 s.
///
/// # Errors
///
/// Want of memory alone.
pub fn label_line(alloc: Global, x: u64) -> Result<Line, OutOfMemory>
    ensures line { IfOk result (IsLabelLine x) }
    // No other text meets it.
    ensures only { (text : List ℕ) → IsLabelLine x text → IfOk result (λ line. line ≡ text) }
{
    let (label, passed) = sample_label(x);
    label_text(alloc, civil_of(label.day), passed)
}

/// A tick in decimal digits.
///
/// # Errors
///
/// Want of memory alone.
pub fn tick_line(alloc: Global, tick: u64) -> Result<Line, OutOfMemory>
    ensures { IfOk result (λ line. line ≡ decimal_digits tick) }
{
    let mut out = Vec::new(alloc);
    put_padded(&mut out, u128::from(tick), 1)?;
    Ok(Line::from_vec(out))
}

/// The label of the formal count of x, and the milliseconds of its day that have passed.
fn sample_label(x: u64) -> (Label, u32)
    ensures plain { IsPlainLabel result.0 }
    ensures counts { formal result.0 ≡ count_of x }
    ensures only { (label : TheLabel) → IsPlainLabel label → formal label ≡ count_of x → result.0 ≡ label }
    ensures time { result.0.of_day ≡ pos (result.1 * 10 ^ 15) }
    ensures from { pos 0 ≤ℤ result.0.day }
    ensures to { result.0.day ≤ℤ pos 24_856 }
{
    let label = label_of(
        i128::from(seconds(x)) * SECOND + i128::from(milliseconds(x)) * MILLISECOND,
    );
    (label, (label.of_day / MILLISECOND) as u32)
}

/// A date and the time of day after some milliseconds, as `YYYY-MM-DDTHH:MM:SS.mmm`.
fn label_text(alloc: Global, date: Civil, passed: u32) -> Result<Line, OutOfMemory>
    ensures { IfOk result (λ line. line ≡ sample.label_text date passed) }
{
    let mut out = Vec::new(alloc);
    put_date(&mut out, date)?;
    put_clock(&mut out, passed)?;
    Ok(Line::from_vec(out))
}

/// Appends a date as `YYYY-MM-DD`, and the `T` after it.
fn put_date(out: &mut Vec<u8>, date: Civil) -> Result<(), OutOfMemory>
    ensures { OnOk result (out.new.items ≡ out.old.items ++ (date_text date ++ letter_t ∷ [])) }
{
    put_field(out, date.year.unsigned_abs(), 4, b'-')?;
    put_field(out, u32::from(date.month), 2, b'-')?;
    put_field(out, u32::from(date.day), 2, b'T')
}

/// Appends the time of day after some milliseconds, as `HH:MM:SS.mmm`.
fn put_clock(out: &mut Vec<u8>, passed: u32) -> Result<(), OutOfMemory>
    ensures { OnOk result (out.new.items ≡ out.old.items ++ clock_text passed) }
{
    put_field(out, passed / 3_600_000, 2, b':')?;
    put_field(out, passed / 60_000 % 60, 2, b':')?;
    put_field(out, passed / 1_000 % 60, 2, b'.')?;
    put_padded(out, u128::from(passed % 1_000), 3)
}

/// Appends a number in as many digits as the width, or more where it has more, and the byte that ends it.
fn put_field(out: &mut Vec<u8>, number: u32, width: usize, end: u8) -> Result<(), OutOfMemory>
    requires { width ≤ 4 }
    ensures { OnOk result (out.new.items ≡ out.old.items ++ (padded width number ++ end ∷ [])) }
{
    put_padded(out, u128::from(number), width)?;
    out.push(end)?;
    Ok(())
}
