//! Text as bytes: blanks, runs of decimal digits and the lines of a file.
#![tactic(auto)]

mod blanks;
mod digits;
pub mod laws;
mod lines;
mod scan;
mod spelling;

pub use blanks::{are_blanks, is_blank, skip_blanks, trim};
pub use digits::{are_digits, read_digits, read_wide_digits};
pub use lines::{line_end, split_line, without_cr};
pub use scan::{after, has_length, is_digit_run, split_digits};
pub use spelling::{put_padded, write_padded};
