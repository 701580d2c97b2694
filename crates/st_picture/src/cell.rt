//! Cells of the time line.

/// The stretch of the time line in which a printed time lies: what is printed is a function of it.
#[derive(Clone, Copy, Debug, PartialEq, Eq)]
pub enum Cell {
    /// A whole number of least units, of seconds past J2000 or of days of the Julian date.
    Count(i128),
    /// A day, counted from 2000-01-01, and how much of it has passed, in units of 10^-18 s.
    Day { day: i32, of_day: i128 },
    /// A month, from 1 to 12.
    Month { year: i32, month: u8 },
    /// A year.
    Year(i32),
}
