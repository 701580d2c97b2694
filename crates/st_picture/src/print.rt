//! The text of what is shown: the pieces of a picture in their order.

ghost use Rattle.std.specs.Prelude.{◌≡◌, ◌≤◌, ◌+◌, ◌/◌, ◌%◌, ◌-◌, ◌^◌, ◌++◌, ◌∷◌, [], false, OnOk, codes, nat_lt, if◌then◌else◌, take};
ghost use Rattle.std.specs.List.{flat_map, list_any};
ghost use Rattle.st_dates.specs.Names.{lowered, name_of_month, name_of_weekday};
ghost use Rattle.st_decimal.specs.Fixed.{decimals};
ghost use Rattle.st_picture.specs.Mark.{places_of};
ghost use Rattle.st_picture.specs.declared.mark.Case.TheVariants.{Capital};
ghost use Rattle.st_text.specs.Bytes.{padded};
ghost use Rattle.st_picture.specs.Named.{IsNamed};
ghost use Rattle.st_picture.specs.ReadingMachine.{has_many_places};
ghost use Rattle.st_picture.specs.Text.{in_case, mark_text, seconds_text, shown_text};

use crate::mark::{Case, Mark, Piece};
use crate::shown::Shown;
use st_dates::{month_name, weekday_name};
use st_decimal::{OutOfMemory, put_fixed};
use st_text::put_padded;

/// The units of 10^-18 s in a second.
const SECOND: u128 = 1_000_000_000_000_000_000;

/// Appends what the pieces print.
pub(crate) fn put_pieces(
    out: &mut Vec<u8>,
    shown: Shown,
    pieces: &[Piece],
) -> Result<(), OutOfMemory>
    requires named { IsNamed shown }
    requires places { list_any has_many_places pieces.now ≡ false }
    ensures { OnOk result (out.new.items ≡ out.old.items ++ flat_map (shown_text shown) pieces.now) }
{
    for piece in pieces {
        put_piece(out, shown, *piece)?;
    }
    Ok(())
}

/// Appends what a piece prints.
fn put_piece(out: &mut Vec<u8>, shown: Shown, piece: Piece) -> Result<(), OutOfMemory>
    requires named { IsNamed shown }
    requires places { has_many_places piece ≡ false }
    ensures { OnOk result (out.new.items ≡ out.old.items ++ shown_text shown piece) }
{
    match piece {
        Piece::Marked(mark) => put_mark(out, shown, mark),
        Piece::Plain(byte) => put_byte(out, byte),
    }
}

/// Appends what a mark prints.
fn put_mark(out: &mut Vec<u8>, shown: Shown, mark: Mark) -> Result<(), OutOfMemory>
    requires named { IsNamed shown }
    requires places { places_of mark ≤ 9 }
    ensures { OnOk result (out.new.items ≡ out.old.items ++ mark_text shown mark) }
{
    match mark {
        Mark::Year => put_digits(out, shown.civil.year.unsigned_abs(), 4),
        Mark::Month => put_digits(out, u32::from(shown.civil.month), 2),
        Mark::MonthShort(letters) => put_name(
            out,
            letters,
            first_three(month_name(shown.civil.month)),
        ),
        Mark::MonthName(letters) => put_name(
            out,
            letters,
            month_name(shown.civil.month).as_bytes(),
        ),
        Mark::DayOfMonth => put_digits(out, u32::from(shown.civil.day), 2),
        Mark::DayOfYear => put_digits(out, u32::from(shown.civil.doy), 3),
        Mark::WeekdayShort(letters) => put_name(
            out,
            letters,
            first_three(weekday_name(shown.civil.weekday)),
        ),
        Mark::WeekdayName(letters) => put_name(
            out,
            letters,
            weekday_name(shown.civil.weekday).as_bytes(),
        ),
        Mark::Hour => put_digits(out, shown.hour, 2),
        Mark::HourOfHalf => put_digits(out, hour_of_half(shown.hour), 2),
        Mark::Minute => put_digits(out, shown.minute, 2),
        Mark::Second(places) => put_seconds(out, shown.second, places),
        Mark::HalfUpper => put_text(out, half_upper(shown.hour)),
        Mark::HalfLower => put_text(out, half_lower(shown.hour)),
        Mark::Seconds(places) => put_fixed(out, shown.count, places),
        Mark::JulianDate(places) => put_fixed(out, shown.count, places),
        Mark::Scale(_) | Mark::Round | Mark::Truncate => Ok(()),
    }
}

/// Appends digits, with zeros before them where they are fewer than the width.
fn put_digits(out: &mut Vec<u8>, number: u32, width: usize) -> Result<(), OutOfMemory>
    requires { width ≤ 4 }
    ensures { OnOk result (out.new.items ≡ out.old.items ++ padded width number) }
{
    put_padded(out, u128::from(number), width)
}

/// Appends seconds, with as many decimals, of units of 10^-18 s.
fn put_seconds(out: &mut Vec<u8>, second: u128, places: u32) -> Result<(), OutOfMemory>
    requires { places ≤ 9 }
    ensures { OnOk result (out.new.items ≡ out.old.items ++ seconds_text second places) }
{
    put_padded(out, second / SECOND, 2)?;
    put_decimals(
        out,
        second % SECOND / 10u128.pow(18 - places),
        places as usize,
    )
}

/// Appends a point and decimals, and neither for none.
fn put_decimals(out: &mut Vec<u8>, number: u128, places: usize) -> Result<(), OutOfMemory>
    requires { places ≤ 9 }
    ensures { OnOk result (out.new.items ≡ out.old.items ++ decimals places number) }
{
    if places == 0 {
        return Ok(());
    }
    put_byte(out, b'.')?;
    put_padded(out, number, places)
}

/// Appends a name in these letters.
fn put_name(out: &mut Vec<u8>, letters: Case, name: &[u8]) -> Result<(), OutOfMemory>
    ensures { OnOk result (out.new.items ≡ out.old.items ++ in_case letters name.now) }
{
    match letters {
        Case::Upper => put_text(out, name),
        Case::Capital => put_capital(out, name),
        Case::Lower => put_lowered(out, name),
    }
}

/// Appends a name with its first letter as it is, and the others in lower case.
fn put_capital(out: &mut Vec<u8>, name: &[u8]) -> Result<(), OutOfMemory>
    ensures { OnOk result (out.new.items ≡ out.old.items ++ in_case Capital name.now) }
{
    match name {
        [] => Ok(()),
        [first, more @ ..] => {
            put_byte(out, *first)?;
            put_lowered(out, more)
        }
    }
}

/// Appends a text in lower case.
fn put_lowered(out: &mut Vec<u8>, text: &[u8]) -> Result<(), OutOfMemory>
    ensures { OnOk result (out.new.items ≡ out.old.items ++ lowered text.now) }
{
    for byte in text {
        put_byte(out, byte.to_ascii_lowercase())?;
    }
    Ok(())
}

fn put_text(out: &mut Vec<u8>, text: &[u8]) -> Result<(), OutOfMemory>
    ensures { OnOk result (out.new.items ≡ out.old.items ++ text.now) }
{
    out.extend_from_slice(text)
}

fn put_byte(out: &mut Vec<u8>, byte: u8) -> Result<(), OutOfMemory>
    ensures { OnOk result (out.new.items ≡ out.old.items ++ byte ∷ []) }
{
    out.push(byte)?;
    Ok(())
}

fn first_three(name: &str) -> &[u8]
    ensures { result.now ≡ take 3 name.now }
{
    let bytes = name.as_bytes();
    if bytes.len() < 3 { bytes } else { &bytes[..3] }
}

/// The hour of the half day, 1 to 12.
fn hour_of_half(hour: u32) -> u32
    requires { hour ≤ 23 }
    ensures { result ≡ (hour + 11) % 12 + 1 }
{
    let past_one = (hour + 11) % 12;
    past_one + 1
}

fn half_upper(hour: u32) -> &'static [u8]
    ensures { result.now ≡ (if nat_lt hour 12 then codes "A.M." else codes "P.M.") }
{
    if hour < 12 { b"A.M." } else { b"P.M." }
}

fn half_lower(hour: u32) -> &'static [u8]
    ensures { result.now ≡ (if nat_lt hour 12 then codes "a.m." else codes "p.m.") }
{
    if hour < 12 { b"a.m." } else { b"p.m." }
}
