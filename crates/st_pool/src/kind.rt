//! The kinds of variables.

/// Of which kind the values of a variable are.
#[derive(Clone, Copy, Debug, PartialEq, Eq)]
pub enum Kind {
    /// No loaded kernel has an assignment of the variable.
    Absent,
    /// All of them are numbers.
    Numbers,
    /// All of them are strings.
    Texts,
    /// Some are numbers and some are strings.
    Mixed,
}
