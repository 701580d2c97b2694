//! What the options of the words ask for together.

ghost use Rattle.std.specs.Prelude.{◌≡◌};

use crate::choice::Choice;
use crate::opt::Opt;
use crate::time_type::TimeType;
use st_dates::System;
use st_decimal::KText;

/// What the options ask for together: the value of each that is there.
#[derive(Debug, Drop)]
pub struct Options {
    pub setup: Option<KText>,
    pub from: Option<System>,
    pub from_type: Option<TimeType>,
    pub to: Option<System>,
    pub to_type: Option<TimeType>,
    pub format: Option<KText>,
    pub time: Option<KText>,
    pub batch: bool,
    /// The count of lines, and the seed.
    pub sample: Option<(u32, u64)>,
    pub clock: Option<u32>,
    pub back: bool,
}

impl Options {
    ghost use Rattle.st_words.specs.Cut as spec;

    /// No option is there.
    pub fn new() -> Self
        ensures { result ≡ spec.nothing }
    {
        Options {
            setup: None,
            from: None,
            from_type: None,
            to: None,
            to_type: None,
            format: None,
            time: None,
            batch: false,
            sample: None,
            clock: None,
            back: false,
        }
    }

    /// Whether the option is there.
    pub fn has(&self, opt: Opt) -> bool
        ensures { result ≡ spec.has self.now opt }
    {
        match opt {
            Opt::Setup => self.setup.is_some(),
            Opt::From => self.from.is_some(),
            Opt::FromType => self.from_type.is_some(),
            Opt::To => self.to.is_some(),
            Opt::ToType => self.to_type.is_some(),
            Opt::Format => self.format.is_some(),
            Opt::Time => self.time.is_some(),
            Opt::Batch => self.batch,
            Opt::Sample => self.sample.is_some(),
            Opt::Sc => self.clock.is_some(),
            Opt::Back => self.back,
        }
    }

    /// Adds one option.
    pub fn add(&mut self, choice: Choice)
        ensures { self.new ≡ spec.with_choice self.old choice }
    {
        match choice {
            Choice::Setup(name) => self.setup = Some(name),
            Choice::From(system) => self.from = Some(system),
            Choice::FromType(kind) => self.from_type = Some(kind),
            Choice::To(system) => self.to = Some(system),
            Choice::ToType(kind) => self.to_type = Some(kind),
            Choice::Format(text) => self.format = Some(text),
            Choice::Time(text) => self.time = Some(text),
            Choice::Batch => self.batch = true,
            Choice::Sample { lines, seed } => self.sample = Some((lines, seed)),
            Choice::Sc(clock) => self.clock = Some(clock),
            Choice::Back => self.back = true,
        }
    }
}
