//! Why a certificate is not sound.

/// The chains of a sine proof.
#[derive(Clone, Copy, Debug, PartialEq, Eq)]
pub enum Chain {
    /// Of the mean anomaly.
    M,
    /// Of the eccentric anomaly.
    E,
}

/// The first reason that a certificate is not sound, in the order in which they are tested. For each proof, and in it for `m`
/// before `e`, the reasons from `Angle` to `Step` are tested together. Proofs are counted from 1.
#[derive(Clone, Copy, Debug, PartialEq, Eq)]
pub enum Why {
    /// The text is not JSON.
    NotJson,
    /// The value has another form than a certificate's.
    Shape,
    /// A number lies outside its range, or a row's lower end is above its upper end.
    Range,
    /// The number of proofs, or a TT value of theirs, is not that of the way.
    Route,
    /// The chain's angle is too far from the angle whose sine it shows.
    Angle(u32, Chain),
    /// The chain's first row does not contain the small bounds of its `x`.
    Base(u32, Chain),
    /// A row does not contain the doubling of the row before it. Rows are counted from 1, after the first one.
    Step { proof: u32, chain: Chain, row: u32 },
    /// An end of the two proofs lies on the wrong side of the source.
    Bracket,
    /// The picture does not read for the target.
    Picture,
    /// The two ends have different cells.
    Cells,
    /// The text is not that of the cell.
    Text,
}
