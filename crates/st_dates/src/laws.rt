//! Laws of the text of dates. Each function does nothing; its contract is the law.

ghost use Rattle.st_dates.specs.WrittenDate.{DateReads};

/// A day that is written as YYYY-MM-DD is read as the moment at which it begins.
pub fn date_reads()
    ensures { DateReads }
{}
