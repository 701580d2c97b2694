//! The forms of texts that a source takes.

/// Which forms of time texts are taken. UTC takes calendar dates alone, whatever stands here.
#[derive(Clone, Copy, Debug, PartialEq, Eq, Hash)]
pub enum Form {
    /// Every form.
    Any,
    /// Calendar dates and Julian dates.
    Calendar,
    /// Plain seconds past J2000.
    Seconds,
}
