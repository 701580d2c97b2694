//! The places of assignments.

/// Where an assignment stands among those of the loaded kernels.
#[derive(Clone, Copy, Debug, PartialEq, Eq)]
pub struct Place {
    /// The number of its kernel in the order of loading, from 0.
    pub kernel: u32,
    /// The number of the assignment in its kernel, from 0.
    pub assignment: u32,
}
