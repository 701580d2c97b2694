//! The job that options ask for.

ghost use Rattle.std.specs.Prelude.{◌≡◌, ◌≢◌, ◌⊎◌, ◌≤◌, ℕ, List, Ok, Err, Some, true, false, IfOk, IfErr, IfSome, IfNone, IsTrue, unwrap_or, option_copied, option_map, find};
ghost use Rattle.st_dates.specs.declared.system.System.{System as TheSystem};
ghost use Rattle.st_picture.specs.Picture.{Picture as ThePicture};
ghost use Rattle.st_picture.specs.Reading.{ReadsPicture, IsSecondsAlone};
ghost use Rattle.st_picture.specs.declared.fault.PictureFault.{PictureFault as TheFault};
ghost use Rattle.st_words.specs.Cut.{has};
ghost use Rattle.st_words.specs.Job.{IsShape, IsWork};
ghost use Rattle.st_words.specs.JobSteps.{Keeps};
ghost use Rattle.st_words.specs.Kinds as kinds;
ghost use Rattle.st_words.specs.Reading.{OptionsGive};
ghost use Rattle.st_words.specs.Rules.{RefusesPicture};
ghost use Rattle.st_words.specs.RulesMachine as machine;
ghost use Rattle.st_words.specs.declared.fault.WordFault.TheVariants as faults;
ghost use Rattle.st_words.specs.declared.job.ToKind.TheVariants.{Pictured};
ghost use Rattle.st_words.specs.declared.opt.Opt.TheVariants as opts;

use crate::fault::WordFault;
use crate::job::{FromKind, Job, ToKind, Work};
use crate::opt::Opt;
use crate::options::Options;
use crate::rule::{BEFORE_PICTURE, OF_WAY_BACK, first_fault};
use crate::time_type::TimeType;
use st_dates::System;
use st_decimal::KText;
use st_forms::Form;
use st_picture::Picture;
use std::alloc::Global;

/// The job that options ask for.
///
/// # Errors
///
/// The fault of the first rule that the options break, or want of memory.
pub fn make_job(alloc: Global, options: Options) -> Result<Job, WordFault>
    ensures ok { IfOk result (λ job. OptionsGive options (Ok job)) }
    ensures err { IfErr result (λ fault. fault ≢ faults.OutOfMemory → OptionsGive options (Err fault)) }
{
    let shape = tested(alloc, &options)?;
    Ok(job_of(options, shape))
}

/// How the target's times are written, where the options break no rule.
fn tested(alloc: Global, options: &Options) -> Result<ToKind, WordFault>
    ensures ok { IfOk result (Keeps options.now) }
    ensures err { IfErr result (λ fault. fault ≢ faults.OutOfMemory → OptionsGive options.now (Err fault)) }
{
    if let Some(fault) = first_fault(&BEFORE_PICTURE, options) {
        return Err(fault);
    }
    let shape = read_shape(alloc, options)?;
    if let Some(fault) = first_fault(&OF_WAY_BACK, options) {
        return Err(fault);
    }
    if is_misprinted(options, &shape) {
        return Err(WordFault::Conflict(Opt::Back, Opt::Format));
    }
    Ok(shape)
}

/// How the target's times are written, whose system is there.
fn read_shape(alloc: Global, options: &Options) -> Result<ToKind, WordFault>
    requires { has options.now opts.To ≡ true }
    ensures ok { IfOk result (λ shape. (system : TheSystem) × (options.now.to ≡ Some system) × IsShape options.now system shape) }
    ensures err { IfErr result (λ fault. fault ≢ faults.OutOfMemory
        → (refusal : TheFault) × RefusesPicture options.now refusal × (fault ≡ faults.BadPicture refusal)) }
{
    let system = options.to.unwrap();
    match options.to_type.unwrap_or(default_type(system)) {
        TimeType::Scet => read_picture(alloc, options, b"YYYY-MM-DDTHR:MN:SC.###", system),
        TimeType::Seconds => read_picture(alloc, options, b"SP2000.######", system),
        TimeType::Sclk => Ok(ToKind::Clock),
        TimeType::Ticks => Ok(ToKind::Ticks),
    }
}

/// The picture that the options give, or else this one.
fn read_picture(
    alloc: Global,
    options: &Options,
    default: &[u8],
    system: System,
) -> Result<ToKind, WordFault>
    requires system { options.now.to ≡ Some system }
    requires default { kinds.default_picture (kinds.to_type system options.now.to_type) ≡ Some default.now }
    ensures ok { IfOk result (IsShape options.now system) }
    ensures err { IfErr result (λ fault. fault ≢ faults.OutOfMemory
        → (refusal : TheFault) × RefusesPicture options.now refusal × (fault ≡ faults.BadPicture refusal)) }
{
    let picture = Picture::read(alloc, text_of(options, default), system)?;
    Ok(ToKind::Pictured(picture))
}

/// The text of the picture that the options give, or else this one.
fn text_of<'a>(options: &'a Options, default: &'a [u8]) -> &'a [u8]
    ensures { result.now ≡ unwrap_or options.now.format default.now }
{
    match &options.format {
        Some(text) => text.as_slice(),
        None => default,
    }
}

/// The type of a target where none is given.
fn default_type(system: System) -> TimeType
    ensures { result ≡ kinds.default_type system }
{
    match system {
        System::Utc => TimeType::Scet,
        System::Sclk => TimeType::Sclk,
        System::Tai | System::Tt | System::Tdb => TimeType::Seconds,
    }
}

/// Whether there is a way back, but not from seconds past J2000 and nothing else.
fn is_misprinted(options: &Options, shape: &ToKind) -> bool
    ensures yes { result ≡ true → (has options.now opts.Back ≡ true)
        × ((picture : ThePicture) → shape.now ≡ Pictured picture → IsSecondsAlone picture.pieces → ⊥) }
    ensures no { result ≡ false → has options.now opts.Back ≡ true
        → (picture : ThePicture) × (shape.now ≡ Pictured picture) × IsSecondsAlone picture.pieces }
{
    options.back && !are_seconds(shape)
}

/// Whether times are written as seconds past J2000 and nothing else.
fn are_seconds(shape: &ToKind) -> bool
    ensures yes { result ≡ true → (picture : ThePicture) × (shape.now ≡ Pictured picture) × IsSecondsAlone picture.pieces }
    ensures no { result ≡ false → (picture : ThePicture) → shape.now ≡ Pictured picture → IsSecondsAlone picture.pieces → ⊥ }
{
    match shape {
        ToKind::Pictured(picture) => picture.seconds_alone(),
        ToKind::Clock | ToKind::Ticks => false,
    }
}

/// The job of options that break no rule.
fn job_of(options: Options, shape: ToKind) -> Job
    requires setup { has options opts.Setup ≡ true }
    requires from { has options opts.From ≡ true }
    requires to { has options opts.To ≡ true }
    ensures setup { options.setup ≡ Some result.setup }
    ensures from { options.from ≡ Some result.from }
    ensures to { options.to ≡ Some result.to }
    ensures form { result.form ≡ kinds.from_kind result.from options.from_type }
    ensures shape { result.shape ≡ shape }
    ensures clock { result.clock ≡ options.clock }
    ensures work { result.work ≡ machine.work_of options.time options.sample }
    ensures back { result.back ≡ options.back }
{
    let from = options.from.unwrap();
    Job {
        setup: options.setup.unwrap(),
        from,
        form: from_kind(from, options.from_type),
        to: options.to.unwrap(),
        shape,
        clock: options.clock,
        work: work_of(options.time, options.sample),
        back: options.back,
    }
}

/// How the source's times are written.
fn from_kind(system: System, given: Option<TimeType>) -> FromKind
    ensures { result ≡ kinds.from_kind system given }
{
    match (given, system) {
        (Some(TimeType::Scet), _) => FromKind::Time(Form::Calendar),
        (Some(TimeType::Seconds), _) => FromKind::Time(Form::Seconds),
        (Some(TimeType::Sclk), _) => FromKind::Clock,
        (Some(TimeType::Ticks), _) => FromKind::Ticks,
        (None, System::Utc) => FromKind::Time(Form::Calendar),
        (None, System::Sclk) => FromKind::Clock,
        (None, System::Tai | System::Tt | System::Tdb) => FromKind::Time(Form::Any),
    }
}

/// Where the lines come from: a time is given, or a sample, or they are those of the input.
fn work_of(time: Option<KText>, sample: Option<(u32, u64)>) -> Work
    ensures { result ≡ machine.work_of time sample }
{
    match (time, sample) {
        (Some(text), _) => Work::Time(text),
        (None, Some((lines, seed))) => Work::Sample { lines, seed },
        (None, None) => Work::Batch,
    }
}
