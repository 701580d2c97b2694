//! The tables that a job asks for.

ghost use Rattle.std.specs.Prelude.{◌≡◌, ◌&&◌, true, Ok, IfErr, OnOk, option_map};
ghost use Rattle.st_answers.specs.Asked.{AreTables, ClockOf, ConstantsOf, FirstRefusal, LeapsOf};
ghost use Rattle.st_answers.specs.AskedSteps.{FindsClock, FindsConstants, FindsLeaps, HasFound, IsLater, shown};
ghost use Rattle.st_answers.specs.Ready.{IsReady};
ghost use Rattle.st_answers.specs.Sides as sides;

use st_clock::Clock;
use st_dates::System;
use st_leaps::LeapTable;
use st_scales::Deltet;
use st_tables::{Kernels, TableFault};
use st_words::Job;

/// The tables that a job asks for, lent by the loaded kernels that gave them.
#[derive(Clone, Copy)]
pub struct Lent<'a> {
    pub leaps: Option<&'a LeapTable>,
    pub constants: Option<&'a Deltet>,
    pub clock: Option<&'a Clock>,
}

/// Whether a side of the job is UTC.
fn has_utc(job: &Job) -> bool
    ensures { result ≡ sides.has_utc job.now }
{
    job.from == System::Utc || job.to == System::Utc
}

/// Whether a side of the job is a clock.
pub fn has_clock(job: &Job) -> bool
    ensures { result ≡ sides.has_clock job.now }
{
    job.from == System::Sclk || job.to == System::Sclk
}

/// Whether both sides of the job are clocks.
pub fn are_clocks(job: &Job) -> bool
    ensures { result ≡ (sides.is_clock job.now.from && sides.is_clock job.now.to) }
{
    job.from == System::Sclk && job.to == System::Sclk
}

/// Whether the sides of the job are told by two scales.
fn needs_constants(job: &Job) -> bool
    ensures { result ≡ sides.needs_constants job.now }
{
    !share_scale(job.from, job.to)
}

/// Whether two systems are told by one scale without constants.
fn share_scale(from: System, to: System) -> bool
    ensures { result ≡ sides.share_scale from to }
{
    match (from, to) {
        (System::Utc, System::Tai) | (System::Tai, System::Utc) => true,
        (from, to) => from == to,
    }
}

/// Finds the tables that the job asks for, in their order: that of leap seconds, the constants, the clock.
///
/// # Errors
///
/// The first refusal of a table, or want of memory.
pub fn find_tables(job: &Job, kernels: &mut Kernels) -> Result<(), TableFault>
    requires { IsReady job.now }
    ensures found { OnOk result (HasFound job.now kernels.new) }
    ensures err { IfErr result (FirstRefusal job.now kernels.old.loaded) }
    ensures loaded { kernels.new.loaded ≡ kernels.old.loaded }
{
    find_leaps(job, kernels)?;
    find_constants(job, kernels)?;
    find_clock(job, kernels)
}

/// Finds the table of leap seconds, where the job asks for it.
fn find_leaps(job: &Job, kernels: &mut Kernels) -> Result<(), TableFault>
    ensures gives { FindsLeaps job.now kernels.old.loaded result }
    ensures found { OnOk result (sides.has_utc job.now ≡ true → kernels.new.leaps ≡ true) }
    ensures later { IsLater kernels.old kernels.new }
{
    if has_utc(job) {
        kernels.find_leaps()
    } else {
        Ok(())
    }
}

/// Finds the constants of the scales, where the job asks for them.
fn find_constants(job: &Job, kernels: &mut Kernels) -> Result<(), TableFault>
    ensures gives { FindsConstants job.now kernels.old.loaded result }
    ensures found { OnOk result (sides.needs_constants job.now ≡ true → kernels.new.constants ≡ true) }
    ensures later { IsLater kernels.old kernels.new }
{
    if needs_constants(job) {
        kernels.find_deltet()
    } else {
        Ok(())
    }
}

/// Finds the clock, where the job asks for it.
fn find_clock(job: &Job, kernels: &mut Kernels) -> Result<(), TableFault>
    requires { IsReady job.now }
    ensures gives { FindsClock job.now kernels.old.loaded result }
    ensures found { OnOk result (sides.has_clock job.now ≡ true → kernels.new.clock ≡ job.now.clock) }
    ensures later { IsLater kernels.old kernels.new }
{
    match job.clock {
        Some(n) if has_clock(job) => kernels.find_clock(n),
        _ => Ok(()),
    }
}

/// The tables that the job asks for, which are found.
pub fn lend<'a>(job: &Job, kernels: &'a Kernels) -> Lent<'a>
    requires ready { IsReady job.now }
    requires found { HasFound job.now kernels.now }
    ensures { AreTables job.now kernels.now.loaded (shown result) }
{
    Lent {
        leaps: lend_leaps(job, kernels),
        constants: lend_constants(job, kernels),
        clock: lend_clock(job, kernels),
    }
}

/// The table of leap seconds, where the job asks for it.
fn lend_leaps<'a>(job: &Job, kernels: &'a Kernels) -> Option<&'a LeapTable>
    requires { HasFound job.now kernels.now }
    ensures { LeapsOf job.now kernels.now.loaded (Ok (option_map (λ t. t.now) result)) }
{
    if has_utc(job) {
        Some(kernels.leaps())
    } else {
        None
    }
}

/// The constants of the scales, where the job asks for them.
fn lend_constants<'a>(job: &Job, kernels: &'a Kernels) -> Option<&'a Deltet>
    requires { HasFound job.now kernels.now }
    ensures { ConstantsOf job.now kernels.now.loaded (Ok (option_map (λ t. t.now) result)) }
{
    if needs_constants(job) {
        Some(kernels.deltet())
    } else {
        None
    }
}

/// The clock, where the job asks for it.
fn lend_clock<'a>(job: &Job, kernels: &'a Kernels) -> Option<&'a Clock>
    requires ready { IsReady job.now }
    requires found { HasFound job.now kernels.now }
    ensures { ClockOf job.now kernels.now.loaded (Ok (option_map (λ t. t.now) result)) }
{
    if has_clock(job) {
        Some(kernels.clock())
    } else {
        None
    }
}
