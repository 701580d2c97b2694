//! What a text begins with: a mark, or a byte that stands for itself.

ghost use Rattle.std.specs.Prelude.{◌≡◌, ◌+◌, ◌<◌, ◌≤◌, IfSome, length};
ghost use Rattle.st_picture.specs.Mark.{piece_text, stem_of};
ghost use Rattle.st_picture.specs.Mark as spec;
ghost use Rattle.st_picture.specs.ReadingMachine.{first_stem, front_of};
ghost use Rattle.st_picture.specs.ReadingMachine as machine;

use crate::mark::{Case, Mark, Piece, ScaleMark};

/// All marks without decimals; one whose letters begin another's stands after it.
const STEMS: [Mark; 30] = [
    Mark::Year,
    Mark::Month,
    Mark::MonthName(Case::Upper),
    Mark::MonthName(Case::Capital),
    Mark::MonthName(Case::Lower),
    Mark::MonthShort(Case::Upper),
    Mark::MonthShort(Case::Capital),
    Mark::MonthShort(Case::Lower),
    Mark::DayOfMonth,
    Mark::DayOfYear,
    Mark::WeekdayShort(Case::Upper),
    Mark::WeekdayShort(Case::Capital),
    Mark::WeekdayShort(Case::Lower),
    Mark::WeekdayName(Case::Upper),
    Mark::WeekdayName(Case::Capital),
    Mark::WeekdayName(Case::Lower),
    Mark::Hour,
    Mark::HourOfHalf,
    Mark::Minute,
    Mark::Second(0),
    Mark::HalfUpper,
    Mark::HalfLower,
    Mark::Seconds(0),
    Mark::JulianDate(0),
    Mark::Scale(ScaleMark::Utc),
    Mark::Scale(ScaleMark::Tai),
    Mark::Scale(ScaleMark::Tdb),
    Mark::Scale(ScaleMark::Tdt),
    Mark::Round,
    Mark::Truncate,
];

/// What a text begins with: its longest mark, or its first byte.
#[tactic(auto, unfolding(crate::specs::ReadingMachine::front_of))]
pub(crate) fn front(text: &[u8]) -> Piece
    requires some { 0 < length text.now }
    requires few { length text.now ≤ 255 }
    ensures { result ≡ front_of text.now }
{
    match stem_at(text) {
        Some(mark) => Piece::Marked(with_places(mark, places_behind(&text[stem(mark).len()..]))),
        None => Piece::Plain(text[0]),
    }
}

/// How many bytes a piece has in a picture.
pub(crate) fn piece_len(piece: Piece) -> usize
    ensures { result ≡ length (piece_text piece) }
{
    match piece {
        Piece::Marked(mark) => stem(mark).len() + hashes_len(places(mark)),
        Piece::Plain(_) => 1,
    }
}

/// The decimals of a mark.
pub(crate) fn places(mark: Mark) -> u32
    ensures { result ≡ spec.places_of mark }
{
    match mark {
        Mark::Second(places) | Mark::Seconds(places) | Mark::JulianDate(places) => places,
        _ => 0,
    }
}

/// The first mark whose letters begin a text.
fn stem_at(text: &[u8]) -> Option<Mark>
    ensures first { result ≡ first_stem text.now }
    ensures within { IfSome result (λ mark. length (stem_of mark) ≤ length text.now) }
{
    STEMS
        .iter()
        .copied()
        .find(|mark| text.starts_with(stem(*mark)))
}

/// The letters of a mark.
fn stem(mark: Mark) -> &'static [u8]
    ensures { result.now ≡ stem_of mark }
{
    match mark {
        Mark::Year => b"YYYY",
        Mark::Month => b"MM",
        Mark::MonthShort(Case::Upper) => b"MON",
        Mark::MonthShort(Case::Capital) => b"Mon",
        Mark::MonthShort(Case::Lower) => b"mon",
        Mark::MonthName(Case::Upper) => b"MONTH",
        Mark::MonthName(Case::Capital) => b"Month",
        Mark::MonthName(Case::Lower) => b"month",
        Mark::DayOfMonth => b"DD",
        Mark::DayOfYear => b"DOY",
        Mark::WeekdayShort(Case::Upper) => b"WKD",
        Mark::WeekdayShort(Case::Capital) => b"Wkd",
        Mark::WeekdayShort(Case::Lower) => b"wkd",
        Mark::WeekdayName(Case::Upper) => b"WEEKDAY",
        Mark::WeekdayName(Case::Capital) => b"Weekday",
        Mark::WeekdayName(Case::Lower) => b"weekday",
        Mark::Hour => b"HR",
        Mark::HourOfHalf => b"AP",
        Mark::Minute => b"MN",
        Mark::Second(_) => b"SC",
        Mark::HalfUpper => b"AMPM",
        Mark::HalfLower => b"ampm",
        Mark::Seconds(_) => b"SP2000",
        Mark::JulianDate(_) => b"JULIAND",
        Mark::Scale(ScaleMark::Utc) => b"::UTC",
        Mark::Scale(ScaleMark::Tai) => b"::TAI",
        Mark::Scale(ScaleMark::Tdb) => b"::TDB",
        Mark::Scale(ScaleMark::Tdt) => b"::TDT",
        Mark::Round => b"::RND",
        Mark::Truncate => b"::TRNC",
    }
}

/// A mark with as many decimals, where it takes any.
fn with_places(mark: Mark, places: u32) -> Mark
    ensures { result ≡ machine.with_places mark places }
{
    match mark {
        Mark::Second(_) => Mark::Second(places),
        Mark::Seconds(_) => Mark::Seconds(places),
        Mark::JulianDate(_) => Mark::JulianDate(places),
        other => other,
    }
}

/// The decimals for which a text asks that stands after a mark's letters.
fn places_behind(text: &[u8]) -> u32
    requires { length text.now ≤ 255 }
    ensures { result ≡ machine.places_behind text.now }
{
    match text {
        [b'.', more @ ..] => count_hashes(more) as u32,
        _ => 0,
    }
}

/// How many `#` a text begins with.
fn count_hashes(text: &[u8]) -> usize
    ensures value { result ≡ machine.hashes_at text.now }
    ensures within { result ≤ length text.now }
{
    text.iter().take_while(|byte| **byte == b'#').count()
}

/// How many bytes ask for as many decimals.
fn hashes_len(places: u32) -> usize
    ensures value { result ≡ length (spec.hashes places) }
    ensures few { result ≤ places + 1 }
{
    if places == 0 { 0 } else { places as usize + 1 }
}
