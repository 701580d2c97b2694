//! The marks of time pictures, and what stands between them.

/// How the letters of a name are printed.
#[derive(Clone, Copy, Debug, PartialEq, Eq)]
pub enum Case {
    /// All in upper case.
    Upper,
    /// The first in upper case.
    Capital,
    /// All in lower case.
    Lower,
}

/// The system that a picture names. Source: Time Required Reading, on time pictures; `::TAI` is this
/// project's own.
#[derive(Clone, Copy, Debug, PartialEq, Eq)]
pub enum ScaleMark {
    /// `::UTC`
    Utc,
    /// `::TAI`
    Tai,
    /// `::TDB`
    Tdb,
    /// `::TDT`, another name of TT
    Tdt,
}

/// A mark of a time picture. Source: Time Required Reading, on time pictures, of which these are a part.
/// Marks of seconds and of Julian dates carry their number of decimals.
#[derive(Clone, Copy, Debug, PartialEq, Eq)]
pub enum Mark {
    /// `YYYY`: the year, four digits
    Year,
    /// `MM`: the month, two digits
    Month,
    /// `MON`, `Mon`, `mon`: the first three letters of the month's name
    MonthShort(Case),
    /// `MONTH`, `Month`, `month`: the month's name
    MonthName(Case),
    /// `DD`: the day of the month, two digits
    DayOfMonth,
    /// `DOY`: the day of the year, three digits
    DayOfYear,
    /// `WKD`, `Wkd`, `wkd`: the first three letters of the weekday's name
    WeekdayShort(Case),
    /// `WEEKDAY`, `Weekday`, `weekday`: the weekday's name
    WeekdayName(Case),
    /// `HR`: the hour, 00 to 23
    Hour,
    /// `AP`: the hour of the half day, 01 to 12
    HourOfHalf,
    /// `MN`: the minute, two digits
    Minute,
    /// `SC`, with a point and `#` for each decimal: the second, 60 in an inserted second
    Second(u32),
    /// `AMPM`: `A.M.` or `P.M.`
    HalfUpper,
    /// `ampm`: `a.m.` or `p.m.`
    HalfLower,
    /// `SP2000`, with decimals as `SC`: seconds past J2000
    Seconds(u32),
    /// `JULIAND`, with decimals as `SC`: the Julian date
    JulianDate(u32),
    /// `::UTC`, `::TAI`, `::TDB`, `::TDT`: prints nothing
    Scale(ScaleMark),
    /// `::RND`: prints nothing, and asks for rounding
    Round,
    /// `::TRNC`: prints nothing, and asks for truncation
    Truncate,
}

/// A part of a picture.
#[derive(Clone, Copy, Debug, PartialEq, Eq)]
pub enum Piece {
    /// A mark.
    Marked(Mark),
    /// A byte that stands for itself.
    Plain(u8),
}
