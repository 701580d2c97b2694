//! The answer of a time line.

ghost use Rattle.std.specs.Prelude.{◌≡◌, ◌≢◌, ◌&&◌, true, false, IfOk, IfErr, Ok, Err};
ghost use Rattle.st_answers.specs.Answer.{AnswerGives, ConvertGives, ForwardGives, GivesBy, back_job, there_and_back};
ghost use Rattle.st_answers.specs.AskedSteps.{HasAsked, shown};
ghost use Rattle.st_answers.specs.Ready.{IsReady};
ghost use Rattle.st_answers.specs.Sides.{is_clock};
ghost use Rattle.st_routes.specs.declared.fault.TimeFault.TheVariants.{OutOfMemory as NoMemory};

use crate::asked::{Lent, are_clocks, find_tables, lend};
use crate::fault::AnswerFault;
use crate::source::read_source;
use crate::target::{print, route_of, spell};
use st_dates::System;
use st_decimal::{KText, Line, OutOfMemory};
use st_forms::Form;
use st_routes::TimeFault;
use st_tables::Kernels;
use st_words::{FromKind, Job, ToKind, Work};
use std::alloc::Global;

/// The answer of a time text, without blanks at its ends, for a job whose clock is known, by the tables that the loaded
/// kernels give. It finds these, and leaves the kernels as they are loaded.
///
/// # Errors
///
/// [`AnswerFault`]: the first refusal, of a table, of the text, or of what it stands for; or want of memory.
pub fn answer_time(
    alloc: Global,
    job: &Job,
    kernels: &mut Kernels,
    text: &[u8],
) -> Result<Line, AnswerFault>
    requires { IsReady job.now }
    ensures ok { IfOk result (λ said. AnswerGives job.now kernels.old.loaded text.now (Ok said)) }
    ensures err { IfErr result (λ fault. fault ≢ AnswerFault.OutOfMemory → AnswerGives job.now kernels.old.loaded text.now (Err fault)) }
    ensures loaded { kernels.new.loaded ≡ kernels.old.loaded }
{
    let there = forward(alloc, job, kernels, text)?;
    if !job.back {
        return Ok(there);
    }
    let back = way_back(alloc, job, kernels, there.as_slice())?;
    Ok(join(alloc, there.as_slice(), back.as_slice())?)
}

/// The answer one way.
fn forward(
    alloc: Global,
    job: &Job,
    kernels: &mut Kernels,
    text: &[u8],
) -> Result<Line, AnswerFault>
    requires { IsReady job.now }
    ensures ok { IfOk result (λ said. ForwardGives job.now kernels.old.loaded text.now (Ok said)) }
    ensures err { IfErr result (λ fault. fault ≢ AnswerFault.OutOfMemory → ForwardGives job.now kernels.old.loaded text.now (Err fault)) }
    ensures loaded { kernels.new.loaded ≡ kernels.old.loaded }
{
    find_tables(job, kernels)?;
    let tables = lend(job, kernels);
    Ok(answer_by(alloc, job, &tables, text)?)
}

/// The answer of a text by the tables that the job asks for.
fn answer_by(alloc: Global, job: &Job, tables: &Lent, text: &[u8]) -> Result<Line, TimeFault>
    requires ready { IsReady job.now }
    requires asked { HasAsked job.now (shown tables.now) }
    ensures ok { IfOk result (λ said. GivesBy (is_clock job.now.from && is_clock job.now.to) job.now (shown tables.now) text.now (Ok said)) }
    ensures err { IfErr result (λ fault. fault ≢ NoMemory
        → GivesBy (is_clock job.now.from && is_clock job.now.to) job.now (shown tables.now) text.now (Err fault)) }
{
    if are_clocks(job) {
        spell(alloc, job, tables, text)
    } else {
        convert(alloc, job, tables, text)
    }
}

/// The text of what a text stands for.
fn convert(alloc: Global, job: &Job, tables: &Lent, text: &[u8]) -> Result<Line, TimeFault>
    requires ready { IsReady job.now }
    requires asked { HasAsked job.now (shown tables.now) }
    requires one { (is_clock job.now.from && is_clock job.now.to) ≡ false }
    ensures { ConvertGives job.now (shown tables.now) text.now result }
{
    let time = read_source(job, tables, text)?;
    let route = route_of(job, tables);
    print(alloc, job, tables, &route, time)
}

/// The answer of the way back: the string of the clock's tick at a time that is told in seconds past J2000 in TDB.
fn way_back(
    alloc: Global,
    job: &Job,
    kernels: &mut Kernels,
    text: &[u8],
) -> Result<Line, AnswerFault>
    requires ready { IsReady job.now }
    requires back { job.now.back ≡ true }
    ensures ok { IfOk result (λ said. ForwardGives (back_job job.now) kernels.old.loaded text.now (Ok said)) }
    ensures err { IfErr result (λ fault. fault ≢ AnswerFault.OutOfMemory → ForwardGives (back_job job.now) kernels.old.loaded text.now (Err fault)) }
    ensures loaded { kernels.new.loaded ≡ kernels.old.loaded }
{
    let back = Job {
        setup: KText::new(alloc),
        from: System::Tdb,
        form: FromKind::Time(Form::Seconds),
        to: System::Sclk,
        shape: ToKind::Clock,
        clock: job.clock,
        work: Work::Batch,
        back: false,
    };
    forward(alloc, &back, kernels, text)
}

/// The text of one way, and after it that of the way back.
fn join(alloc: Global, there: &[u8], back: &[u8]) -> Result<Line, OutOfMemory>
    ensures { IfOk result (λ said. said ≡ there_and_back there.now back.now) }
{
    let mut text = Vec::new(alloc);
    text.extend_from_slice(there)?;
    text.extend_from_slice(b" back ")?;
    text.extend_from_slice(back)?;
    Ok(Line::from_vec(text))
}
