//! The rules of a picture's pieces.

ghost use Rattle.std.specs.Prelude.{◌≡◌, ◌↔◌, IsTrue};
ghost use Rattle.std.specs.List.{list_any};
ghost use Rattle.std.specs.Prelude.{count_by};
ghost use Rattle.st_picture.specs.Mark.{spelled};
ghost use Rattle.st_picture.specs.Picture as picture;
ghost use Rattle.st_picture.specs.Reading.{IsSecondsAlone};
ghost use Rattle.st_picture.specs.ReadingMachine as machine;
ghost use Rattle.st_picture.specs.ReadingMachine.{finer_of, least_of, piece_unit, rounds_by, rounds_of, tested, unit_tested};
ghost use Rattle.std.specs.Prelude.{None as Nothing, false as never};

use crate::fault::PictureFault;
use crate::front::{piece_len, places};
use crate::mark::{Mark, Piece, ScaleMark};
use crate::unit::LeastUnit;
use st_dates::System;

/// The most decimals of a mark.
const MOST_PLACES: u32 = 9;

/// Tests the rules in their order: the least unit of the pieces, and whether they round.
pub(crate) fn test(
    text: &[u8],
    pieces: &[Piece],
    system: System,
) -> Result<(LeastUnit, bool), PictureFault>
    requires { text.now ≡ spelled pieces.now }
    ensures { result ≡ tested system pieces.now }
{
    if has_left_out(text, pieces) {
        Err(PictureFault::LeftOutMark)
    } else if has_hash(pieces) {
        Err(PictureFault::StrayHash)
    } else if has_many_places(pieces) {
        Err(PictureFault::TooManyPlaces)
    } else {
        test_unit(pieces, system, least_unit(pieces))
    }
}

/// Tests the rules of what the marks print.
fn test_unit(
    pieces: &[Piece],
    system: System,
    unit: Option<LeastUnit>,
) -> Result<(LeastUnit, bool), PictureFault>
    ensures { result ≡ unit_tested system pieces.now unit }
{
    let Some(unit) = unit else {
        return Err(PictureFault::Empty);
    };
    if is_mixed(pieces) {
        return Err(PictureFault::MixedForms);
    }
    if is_utc(system) && has_count(pieces) {
        return Err(PictureFault::CountInUtc);
    }
    if names_other(pieces, system) {
        return Err(PictureFault::WrongSystem);
    }
    let rounds = rounds(pieces);
    if rounds && is_never_halved(unit) {
        return Err(PictureFault::NoUnit);
    }
    Ok((unit, rounds))
}

/// Whether a mark of other pictures begins where a byte stands for itself.
fn has_left_out(text: &[u8], pieces: &[Piece]) -> bool
    requires { text.now ≡ spelled pieces.now }
    ensures { result ≡ machine.has_left_out pieces.now }
{
    let mut rest = text;
    for piece in pieces {
        if is_plain(*piece) && begins_left_out(rest) {
            return true;
        }
        rest = &rest[piece_len(*piece)..];
    }
    false
}

fn begins_left_out(text: &[u8]) -> bool
    ensures { result ≡ machine.begins_left_out text.now }
{
    text.starts_with(b"YR")
        || text.starts_with(b"ERA")
        || text.starts_with(b"era")
        || text.starts_with(b"SP1950")
        || text.starts_with(b"::")
}

fn has_hash(pieces: &[Piece]) -> bool
    ensures { result ≡ list_any machine.is_hash pieces.now }
{
    pieces.iter().any(|piece| is_hash(*piece))
}

fn has_many_places(pieces: &[Piece]) -> bool
    ensures { result ≡ list_any machine.has_many_places pieces.now }
{
    pieces
        .iter()
        .any(|piece| piece_places(*piece) > MOST_PLACES)
}

fn has_count(pieces: &[Piece]) -> bool
    ensures { result ≡ list_any machine.is_count pieces.now }
{
    pieces.iter().any(|piece| is_count(*piece))
}

fn names_other(pieces: &[Piece], system: System) -> bool
    ensures { result ≡ list_any (machine.names_other system) pieces.now }
{
    pieces.iter().any(|piece| is_other(system, *piece))
}

/// Whether a mark of a number alone stands beside another printing mark, or marks of seconds differ.
fn is_mixed(pieces: &[Piece]) -> bool
    ensures { result ≡ machine.is_mixed pieces.now }
{
    (has_count(pieces) && printing_marks(pieces) > 1) || has_unlike(pieces)
}

/// Whether one mark of seconds prints, and no byte stands for itself.
pub(crate) fn are_seconds_alone(pieces: &[Piece]) -> bool
    ensures { IsTrue result ↔ IsSecondsAlone pieces.now }
{
    test_alone(pieces)
}

fn test_alone(pieces: &[Piece]) -> bool
    ensures { result ≡ machine.are_seconds_alone pieces.now }
{
    has_seconds(pieces) && (printing_marks(pieces) <= 1 && !has_plain(pieces))
}

fn has_seconds(pieces: &[Piece]) -> bool
    ensures { result ≡ list_any machine.is_seconds pieces.now }
{
    pieces.iter().any(|piece| is_seconds(*piece))
}

fn has_plain(pieces: &[Piece]) -> bool
    ensures { result ≡ list_any machine.is_plain pieces.now }
{
    pieces.iter().any(|piece| is_plain(*piece))
}

fn is_seconds(piece: Piece) -> bool
    ensures { result ≡ machine.is_seconds piece }
{
    match piece {
        Piece::Marked(Mark::Seconds(_)) => true,
        _ => false,
    }
}

fn printing_marks(pieces: &[Piece]) -> usize
    ensures { result ≡ count_by machine.is_printing pieces.now }
{
    pieces
        .iter()
        .filter(|piece| unit_of(**piece).is_some())
        .count()
}

/// Whether two marks of seconds have different numbers of decimals.
fn has_unlike(pieces: &[Piece]) -> bool
    ensures { result ≡ machine.has_unlike Nothing pieces.now }
{
    let mut seen: Option<u32> = None;
    for piece in pieces {
        match seen {
            None => seen = seconds_places(*piece),
            Some(places) => {
                if is_unlike(places, seconds_places(*piece)) {
                    return true;
                }
            }
        }
    }
    false
}

/// The finest unit that the pieces print.
fn least_unit(pieces: &[Piece]) -> Option<LeastUnit>
    ensures { result ≡ least_of Nothing pieces.now }
{
    let mut unit = None;
    for piece in pieces {
        unit = finer(unit, unit_of(*piece));
    }
    unit
}

fn finer(unit: Option<LeastUnit>, other: Option<LeastUnit>) -> Option<LeastUnit>
    ensures { result ≡ finer_of unit other }
{
    match unit {
        None => other,
        Some(first) => match other {
            None => Some(first),
            Some(second) => {
                if coarseness(second) < coarseness(first) {
                    Some(second)
                } else {
                    Some(first)
                }
            }
        },
    }
}

/// Whether times are rounded: the last of `::RND` and `::TRNC` counts.
fn rounds(pieces: &[Piece]) -> bool
    ensures { result ≡ rounds_of never pieces.now }
{
    let mut rounds = false;
    for piece in pieces {
        rounds = rounds_behind(rounds, *piece);
    }
    rounds
}

fn rounds_behind(before: bool, piece: Piece) -> bool
    ensures { result ≡ rounds_by before piece }
{
    match piece {
        Piece::Marked(Mark::Round) => true,
        Piece::Marked(Mark::Truncate) => false,
        _ => before,
    }
}

fn is_plain(piece: Piece) -> bool
    ensures { result ≡ machine.is_plain piece }
{
    match piece {
        Piece::Plain(_) => true,
        Piece::Marked(_) => false,
    }
}

fn is_hash(piece: Piece) -> bool
    ensures { result ≡ machine.is_hash piece }
{
    match piece {
        Piece::Plain(byte) => byte == b'#',
        Piece::Marked(_) => false,
    }
}

fn piece_places(piece: Piece) -> u32
    ensures { result ≡ machine.piece_places piece }
{
    match piece {
        Piece::Marked(mark) => places(mark),
        Piece::Plain(_) => 0,
    }
}

fn is_count(piece: Piece) -> bool
    ensures { result ≡ machine.is_count piece }
{
    match piece {
        Piece::Marked(Mark::Seconds(_)) | Piece::Marked(Mark::JulianDate(_)) => true,
        _ => false,
    }
}

fn seconds_places(piece: Piece) -> Option<u32>
    ensures { result ≡ machine.seconds_places piece }
{
    match piece {
        Piece::Marked(Mark::Second(places)) => Some(places),
        _ => None,
    }
}

fn is_unlike(places: u32, other: Option<u32>) -> bool
    ensures { result ≡ machine.is_unlike places other }
{
    match other {
        None => false,
        Some(other) => places != other,
    }
}

/// Whether a piece names another system.
fn is_other(system: System, piece: Piece) -> bool
    ensures { result ≡ machine.names_other system piece }
{
    match piece {
        Piece::Marked(Mark::Scale(mark)) => !is_named(system, mark),
        _ => false,
    }
}

fn is_named(system: System, mark: ScaleMark) -> bool
    ensures { result ≡ machine.is_named system mark }
{
    match (system, mark) {
        (System::Utc, ScaleMark::Utc)
        | (System::Tai, ScaleMark::Tai)
        | (System::Tdb, ScaleMark::Tdb)
        | (System::Tt, ScaleMark::Tdt) => true,
        _ => false,
    }
}

fn is_utc(system: System) -> bool
    ensures { result ≡ machine.is_utc system }
{
    match system {
        System::Utc => true,
        _ => false,
    }
}

fn is_never_halved(unit: LeastUnit) -> bool
    ensures { result ≡ machine.is_never_halved unit }
{
    match unit {
        LeastUnit::Month | LeastUnit::Year => true,
        _ => false,
    }
}

/// The unit that a piece prints.
fn unit_of(piece: Piece) -> Option<LeastUnit>
    ensures { result ≡ piece_unit piece }
{
    match piece {
        Piece::Marked(mark) => unit_of_mark(mark),
        Piece::Plain(_) => None,
    }
}

fn unit_of_mark(mark: Mark) -> Option<LeastUnit>
    ensures { result ≡ picture.unit_of mark }
{
    match mark {
        Mark::Year => Some(LeastUnit::Year),
        Mark::Month | Mark::MonthShort(_) | Mark::MonthName(_) => Some(LeastUnit::Month),
        Mark::DayOfMonth | Mark::DayOfYear => Some(LeastUnit::Day),
        Mark::WeekdayShort(_) | Mark::WeekdayName(_) => Some(LeastUnit::Day),
        Mark::Hour | Mark::HourOfHalf => Some(LeastUnit::Hour),
        Mark::HalfUpper | Mark::HalfLower => Some(LeastUnit::Hour),
        Mark::Minute => Some(LeastUnit::Minute),
        Mark::Second(places) => Some(LeastUnit::Second(places)),
        Mark::Seconds(places) => Some(LeastUnit::Count(places)),
        Mark::JulianDate(places) => Some(LeastUnit::Julian(places)),
        Mark::Scale(_) | Mark::Round | Mark::Truncate => None,
    }
}

/// The place of a unit from fine to coarse.
fn coarseness(unit: LeastUnit) -> u8
    ensures { result ≡ picture.coarseness unit }
{
    match unit {
        LeastUnit::Count(_) | LeastUnit::Julian(_) | LeastUnit::Second(_) => 0,
        LeastUnit::Minute => 1,
        LeastUnit::Hour => 2,
        LeastUnit::Day => 3,
        LeastUnit::Month => 4,
        LeastUnit::Year => 5,
    }
}
