//! The variables of kernels from which tables are made, and the faults of a clock's variables.

use thiserror::Error;

/// A variable of a type 1 clock. Source: NAIF's SCLK Required Reading.
#[derive(Clone, Copy, Debug, PartialEq, Eq, Hash)]
pub enum ClockVar {
    /// `SCLK_DATA_TYPE_n`
    DataType,
    /// `SCLK01_TIME_SYSTEM_n`
    TimeSystem,
    /// `SCLK01_N_FIELDS_n`
    NFields,
    /// `SCLK01_MODULI_n`
    Moduli,
    /// `SCLK01_OFFSETS_n`
    Offsets,
    /// `SCLK01_OUTPUT_DELIM_n`
    Delim,
    /// `SCLK_PARTITION_START_n`
    Start,
    /// `SCLK_PARTITION_END_n`
    End,
    /// `SCLK01_COEFFICIENTS_n`
    Coefficients,
}

/// What is wrong with a variable of a clock.
#[derive(Clone, Copy, Debug, PartialEq, Eq, Hash)]
pub enum ClockWhy {
    /// It has another count of values than one.
    NotOne,
    /// A value is no whole number.
    NotWhole,
    /// A value is no multiple of 10^-18 below 10^38 of these units.
    NotUnits,
    /// A value lies outside its range.
    Range,
    /// It has another count of values than it must have.
    Count,
    /// A product or a sum of its values is too large.
    Product,
    /// Values do not rise.
    NotRising,
}

/// The first fault of a clock's variables.
#[derive(Clone, Copy, Debug, PartialEq, Eq, Hash, Error)]
#[error("{var:?} of a clock: {why:?}")]
pub struct ClockFault {
    pub var: ClockVar,
    pub why: ClockWhy,
}

/// A variable from which a table or a setup is made.
#[derive(Clone, Copy, Debug, PartialEq, Eq, Hash)]
pub enum Var {
    /// `DELTET/DELTA_AT`
    DeltaAt,
    /// `DELTET/DELTA_T_A`
    DeltaTa,
    /// `DELTET/K`
    K,
    /// `DELTET/EB`
    Eb,
    /// `DELTET/M`
    M,
    /// A variable of the clock whose id is `-n`.
    Clock { var: ClockVar, n: u32 },
    /// `LEAPSECONDS_FILE`
    LeapsecondsFile,
    /// `SCLK_FILE`
    SclkFile,
    /// `SPACECRAFT_ID`
    SpacecraftId,
    /// `KERNELS_TO_LOAD`
    KernelsToLoad,
    /// `PATH_SYMBOLS`
    PathSymbols,
    /// `PATH_VALUES`
    PathValues,
    /// `CORRELATE_ID`
    CorrelateId,
    /// `CORRELATE_TOLERANCE`
    CorrelateTolerance,
    /// `CORRELATE_PAIRS`
    CorrelatePairs,
}
