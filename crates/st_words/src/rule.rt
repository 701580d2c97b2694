//! The rules on the options together, in the order in which they are tested.

ghost use Rattle.std.specs.Prelude.{◌≡◌, find, map, option_map};
ghost use Rattle.st_words.specs.Rules as spec;
ghost use Rattle.st_words.specs.RulesMachine as machine;

use crate::fault::WordFault;
use crate::opt::Opt;
use crate::options::Options;
use crate::time_type::{TimeType, fits};
use st_dates::System;

/// A rule on the options.
#[derive(Clone, Copy, Debug, PartialEq, Eq)]
pub enum Rule {
    /// `-setup` is there.
    SetupIsThere,
    /// `-from` is there.
    FromIsThere,
    /// `-to` is there.
    ToIsThere,
    /// One of `-time`, `-batch` and `-sample` is there.
    WorkIsThere,
    /// The type of `-fromtype` is one of the source's system.
    FromTypeFits,
    /// The type of `-totype` is one of the target's system.
    ToTypeFits,
    /// `-time` and `-batch` are not both there.
    TimeOrBatch,
    /// `-time` and `-sample` are not both there.
    TimeOrSample,
    /// `-batch` and `-sample` are not both there.
    BatchOrSample,
    /// A clock has no picture.
    FormatOfNoClock,
    /// Seconds that are asked for by their type have no picture.
    FormatOrSeconds,
    /// The picture in force is one.
    PictureReads,
    /// The way back is to a clock.
    BackToClock,
    /// The way back is from ET.
    BackFromEt,
    /// The way back is from seconds and nothing else.
    BackFromSeconds,
}

/// The rules that stand before the picture's.
pub const BEFORE_PICTURE: [Rule; 11] = [
    Rule::SetupIsThere,
    Rule::FromIsThere,
    Rule::ToIsThere,
    Rule::WorkIsThere,
    Rule::FromTypeFits,
    Rule::ToTypeFits,
    Rule::TimeOrBatch,
    Rule::TimeOrSample,
    Rule::BatchOrSample,
    Rule::FormatOfNoClock,
    Rule::FormatOrSeconds,
];

/// The rules of the way back that ask for no picture.
pub const OF_WAY_BACK: [Rule; 2] = [Rule::BackToClock, Rule::BackFromEt];

/// The fault of the first of some rules that the options break.
pub fn first_fault(rules: &[Rule], options: &Options) -> Option<WordFault>
    ensures { result ≡ machine.first_fault options.now rules.now }
{
    first_broken(rules, options).and_then(fault_of)
}

/// The first of some rules that the options break.
fn first_broken(rules: &[Rule], options: &Options) -> Option<Rule>
    ensures { result ≡ find (machine.is_broken options.now) rules.now }
{
    rules.iter().copied().find(|rule| is_broken(options, *rule))
}

/// Whether the options break a rule; the rules that look at the picture are not tested here.
fn is_broken(options: &Options, rule: Rule) -> bool
    ensures { result ≡ machine.is_broken options.now rule }
{
    match rule {
        Rule::SetupIsThere => options.setup.is_none(),
        Rule::FromIsThere => options.from.is_none(),
        Rule::ToIsThere => options.to.is_none(),
        Rule::WorkIsThere => {
            options.time.is_none() && !options.batch && options.sample.is_none()
        }
        Rule::FromTypeFits => is_misfit(options.from, options.from_type),
        Rule::ToTypeFits => is_misfit(options.to, options.to_type),
        Rule::TimeOrBatch => options.time.is_some() && options.batch,
        Rule::TimeOrSample => options.time.is_some() && options.sample.is_some(),
        Rule::BatchOrSample => options.batch && options.sample.is_some(),
        Rule::FormatOfNoClock => options.format.is_some() && options.to == Some(System::Sclk),
        Rule::FormatOrSeconds => {
            options.format.is_some() && options.to_type == Some(TimeType::Seconds)
        }
        Rule::BackToClock => options.back && options.from != Some(System::Sclk),
        Rule::BackFromEt => options.back && options.to != Some(System::Tdb),
        Rule::PictureReads | Rule::BackFromSeconds => false,
    }
}

/// Whether a type is given that is none of its system.
fn is_misfit(system: Option<System>, kind: Option<TimeType>) -> bool
    ensures { result ≡ machine.is_misfit system kind }
{
    match (system, kind) {
        (Some(system), Some(kind)) => !fits(system, kind),
        _ => false,
    }
}

/// The fault that names a broken rule; the picture's rule has the faults of its reading.
fn fault_of(rule: Rule) -> Option<WordFault>
    ensures { result ≡ spec.fault_of rule }
{
    match rule {
        Rule::SetupIsThere => Some(WordFault::Missing(Opt::Setup)),
        Rule::FromIsThere => Some(WordFault::Missing(Opt::From)),
        Rule::ToIsThere => Some(WordFault::Missing(Opt::To)),
        Rule::WorkIsThere => Some(WordFault::Missing(Opt::Time)),
        Rule::FromTypeFits => Some(WordFault::BadPair(Opt::FromType)),
        Rule::ToTypeFits => Some(WordFault::BadPair(Opt::ToType)),
        Rule::TimeOrBatch => Some(WordFault::Conflict(Opt::Time, Opt::Batch)),
        Rule::TimeOrSample => Some(WordFault::Conflict(Opt::Time, Opt::Sample)),
        Rule::BatchOrSample => Some(WordFault::Conflict(Opt::Batch, Opt::Sample)),
        Rule::FormatOfNoClock => Some(WordFault::Conflict(Opt::Format, Opt::To)),
        Rule::FormatOrSeconds => Some(WordFault::Conflict(Opt::Format, Opt::ToType)),
        Rule::BackToClock => Some(WordFault::Conflict(Opt::Back, Opt::From)),
        Rule::BackFromEt => Some(WordFault::Conflict(Opt::Back, Opt::To)),
        Rule::BackFromSeconds => Some(WordFault::Conflict(Opt::Back, Opt::Format)),
        Rule::PictureReads => None,
    }
}
