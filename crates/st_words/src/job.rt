//! What the words ask for.

use st_dates::System;
use st_decimal::KText;
use st_forms::Form;
use st_picture::Picture;

/// A conversion that is asked for.
#[derive(Debug, Drop)]
pub struct Job {
    /// The setup file's name, of 1 to 255 bytes.
    pub setup: KText,
    /// The source's system.
    pub from: System,
    /// How the source's times are written.
    pub form: FromKind,
    /// The target's system.
    pub to: System,
    /// How the target's times are written.
    pub shape: ToKind,
    /// The magnitude of the clock's id, from 1 to 999,999,999, where the words give it.
    pub clock: Option<u32>,
    /// Where the lines come from.
    pub work: Work,
    /// Whether the way back is asked for: from a clock to seconds past J2000 in TDB alone.
    pub back: bool,
}

/// How the source's times are written.
#[derive(Clone, Copy, Debug, PartialEq, Eq)]
pub enum FromKind {
    /// As times of these forms.
    Time(Form),
    /// As clock strings.
    Clock,
    /// As encoded ticks.
    Ticks,
}

/// How the target's times are written.
#[derive(Debug, Drop)]
pub enum ToKind {
    /// By a picture, which was read for the target's system.
    Pictured(Picture),
    /// As clock strings.
    Clock,
    /// As encoded ticks.
    Ticks,
}

/// Where the lines come from.
#[derive(Debug, Drop)]
pub enum Work {
    /// There is one line, which the words give: a time or a command.
    Time(KText),
    /// The lines are those of the input.
    Batch,
    /// The lines are this many, from 1 to 1,000,000, of the sample generator, begun with the seed.
    Sample { lines: u32, seed: u64 },
}
