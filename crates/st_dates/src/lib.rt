//! Days of the Gregorian calendar, labels of a day and its second, and the dates of a text kernel.
//!
//! Days are counted from 2000-01-01. Times are whole counts of units of 10^-18 s past
//! 2000-01-01 12:00:00 (J2000), on a calendar whose days all have 86,400 s: the formal count.
#![tactic(auto)]

mod at_date;
mod civil;
mod clock;
mod day;
mod day_text;
mod decimals;
mod fault;
mod label;
pub mod laws;
mod names;
mod system;
mod time_text;

pub use at_date::read_at_date;
pub use civil::{Civil, civil_of};
pub use clock::{TimeOfDay, read_clock};
pub use day::{day_of, day_of_doy};
pub use day_text::{CalendarDate, read_day};
pub use decimals::read_decimals;
pub use fault::DateFault;
pub use label::{DAY, FIRST, LAST, Label, SECOND, formal_of, is_in_range, label_of};
pub use names::{month_name, month_of, weekday_name};
pub use system::System;
