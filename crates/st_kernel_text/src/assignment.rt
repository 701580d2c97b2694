//! One assignment of a kernel.

use crate::value::ValueList;
use st_decimal::{KText, List};

/// What an assignment does to the values that its variable has.
#[derive(Clone, Copy, Debug, PartialEq, Eq)]
pub enum Mode {
    /// `=`: it replaces them.
    Set,
    /// `+=`: it adds to them.
    Add,
}

/// A name, a sign and values.
#[derive(Debug, Drop)]
pub struct Assignment {
    pub name: KText,
    pub mode: Mode,
    pub values: ValueList,
}

/// Assignments in order.
pub type AssignmentList = List<Assignment>;
