//! The parts of a clock's face.

/// A field of a clock string. It counts from its offset, and its modulus is how many values it has
/// before the field to its left goes on by one.
#[derive(Clone, Copy, Debug, PartialEq, Eq)]
pub struct Field {
    pub modulus: u64,
    pub offset: u64,
}

/// A partition: a stretch of a clock's life in which its count goes from `start` to `end`.
#[derive(Clone, Copy, Debug, PartialEq, Eq)]
pub struct Partition {
    pub start: u64,
    pub end: u64,
}
