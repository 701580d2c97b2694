//! The values that a kernel assigns.

use st_decimal::{Dec, KText, List};

/// A value of an assignment.
#[derive(Debug, Drop)]
pub enum Value {
    /// A number, or a date as its formal count of seconds past 2000-01-01 12:00:00.
    Number(Dec),
    /// A string, without its quotes.
    Text(KText),
}

/// Values in order.
pub type ValueList = List<Value>;
