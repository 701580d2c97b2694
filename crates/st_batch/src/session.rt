//! The session: a job with its loaded kernels, and how it answers lines.

ghost use Rattle.std.specs.Prelude.{◌≡◌, ◌≢◌, ◌≤◌, true, false, Ok, Err, IfOk, IfErr, OnErr};
ghost use Rattle.st_answers.specs.Ready.{IsReady};
ghost use Rattle.st_outside.specs.States.{KeepsFiles};
ghost use Rattle.st_samples.specs.JobLine.{IsSampleLine};
ghost use Rattle.st_text.specs.Lines.{trimmed};
ghost use Rattle.st_words.specs.Job.{IsGoodJob};
ghost use Rattle.st_batch.specs.Causes.{IsAnswerCaused, IsCaused};
ghost use Rattle.st_batch.specs.Commands.{IsNoLoad, begins_command};
ghost use Rattle.st_batch.specs.Session.{MayAnswer, TextGives};
ghost use Rattle.st_batch.specs.Setting.{setting};
ghost use Rattle.st_batch.specs.Setup.{SetupGives};

use crate::answer::Answer;
use crate::command::{answer_command, is_command};
use crate::load::load_file;
use crate::setup::{find_clock, load_files};
use crate::time;
use st_decimal::{Line, OutOfMemory};
use st_outside::Files;
use st_pool::Pool;
use st_refusals::LineFault;
use st_samples::job_line;
use st_tables::Kernels;
use st_text::trim;
use st_words::{Job, setup_files};
use std::alloc::Global;
use std::marker::Model;

/// The most bytes that a line may have.
pub const MAX_LINE: usize = 1000;

/// A job and the kernels that are loaded between two lines, with the tables that they gave last. Contracts see the
/// job and the kernels, as the loaded list: what tables are kept changes no answer.
#[derive(Debug, Drop)]
pub struct Session {
    alloc: Global,
    job: Job,
    kernels: Kernels,
}

impl Model for Session {
    ghost use Rattle.st_answers.specs.Ready.{IsReady};
    ghost use Rattle.st_batch.specs.Setting.{State};

    ghost Value = { State };

    ghost view = { λ s. record { job = s.job; loaded = s.kernels.loaded } };

    ghost invariant = { λ s. IsReady s.job };
}

impl Session {
    /// The session of a job: its setup file is loaded under its own name, then the files that the loaded setup names by
    /// `LEAPSECONDS_FILE` and by `SCLK_FILE`; where a side is a clock and the job names none, it is that of
    /// `SPACECRAFT_ID`. The session keeps the allocator.
    ///
    /// Source: the CHRONOS User's Guide, on the setup file.
    ///
    /// # Errors
    ///
    /// Why a file isn't loaded, or `WrongKind` of a variable that names files, or why the setup names no clock.
    pub fn open<F: Files>(alloc: Global, job: Job, files: &mut F) -> Result<Session, LineFault>
        requires { IsGoodJob job }
        ensures ok { IfOk result (λ session. SetupGives (record { files = (F.state files.old).map; job = job }) (Ok session)) }
        ensures err { IfErr result (λ fault. fault ≢ LineFault.OutOfMemory
            → SetupGives (record { files = (F.state files.old).map; job = job }) (Err fault)) }
        ensures cause { IfErr result (λ fault. IsCaused fault (F.state files.old).counts (F.state files.new).counts) }
        ensures closed { (F.state files.new).opened ≡ false }
        ensures files { KeepsFiles (F.state files.old) (F.state files.new) }
    {
        let mut kernels = Kernels::new(alloc);
        load_file(alloc, &mut kernels, job.setup.as_slice(), files)?;
        let names = setup_files(alloc, kernels.pool())?;
        let job = find_clock(job, kernels.pool())?;
        load_files(alloc, &mut kernels, names.as_slice(), files)?;
        Ok(Session {
            alloc,
            job,
            kernels,
        })
    }

    /// The job.
    pub fn job(&self) -> &Job
        ensures { result.now ≡ self.now.job }
    {
        &self.job
    }

    /// The loaded kernels.
    pub fn pool(&self) -> &Pool
        ensures { result.now ≡ self.now.loaded }
    {
        self.kernels.pool()
    }

    /// The answer of a line without its end: of a command that begins with `$`, or of a time.
    ///
    /// A refusal leaves the loaded kernels as they were.
    ///
    /// # Errors
    ///
    /// Want of memory; the loaded kernels are then as they were.
    pub fn answer_line<F: Files>(
        &mut self,
        line: &[u8],
        files: &mut F,
    ) -> Result<Answer, OutOfMemory>
        ensures answered { IfOk result (λ answer.
            MayAnswer (setting (F.state files.old).map self.old) self.old.loaded line.now answer self.new.loaded) }
        ensures job { self.new.job ≡ self.old.job }
        ensures err { OnErr result (self.new.loaded ≡ self.old.loaded) }
        ensures cause { IfOk result (λ answer. IsAnswerCaused answer (F.state files.old).counts (F.state files.new).counts) }
        ensures files { KeepsFiles (F.state files.old) (F.state files.new) }
        ensures unread { IsNoLoad (trimmed line.now) → F.state files.new ≡ F.state files.old }
    {
        if line.len() > MAX_LINE {
            return Ok(Answer::Refused(LineFault::LineTooLong));
        }
        answer_text(self.alloc, &self.job, &mut self.kernels, trim(line), files)
    }

    /// The line that x makes for the job by the loaded kernels, where its lines are those of a sample.
    ///
    /// # Errors
    ///
    /// Want of memory alone.
    pub fn sample_line(&mut self, x: u64) -> Result<Line, OutOfMemory>
        ensures line { IfOk result (IsSampleLine self.old.job self.old.loaded x) }
        ensures kept { self.new ≡ self.old }
    {
        job_line(self.alloc, &self.job, &mut self.kernels, x)
    }

    /// The answer of a line without its end that begins with `$`: `$load N`, `$unload N` or `$clear`.
    ///
    /// A refusal leaves the loaded kernels as they were.
    ///
    /// # Errors
    ///
    /// Want of memory; the loaded kernels are then as they were.
    pub fn command_line<F: Files>(
        &mut self,
        line: &[u8],
        files: &mut F,
    ) -> Result<Answer, OutOfMemory>
        requires { begins_command (trimmed line.now) ≡ true }
        ensures answered { IfOk result (λ answer.
            MayAnswer (setting (F.state files.old).map self.old) self.old.loaded line.now answer self.new.loaded) }
        ensures job { self.new.job ≡ self.old.job }
        ensures err { OnErr result (self.new.loaded ≡ self.old.loaded) }
        ensures cause { IfOk result (λ answer. IsAnswerCaused answer (F.state files.old).counts (F.state files.new).counts) }
        ensures files { KeepsFiles (F.state files.old) (F.state files.new) }
        ensures unread { IsNoLoad (trimmed line.now) → F.state files.new ≡ F.state files.old }
    {
        self.answer_line(line, files)
    }
}

/// The answer of a text between the blanks of a line, and what it does to the loaded kernels.
fn answer_text<F: Files>(
    alloc: Global,
    job: &Job,
    kernels: &mut Kernels,
    text: &[u8],
    files: &mut F,
) -> Result<Answer, OutOfMemory>
    requires { IsReady job.now }
    ensures answered { IfOk result (λ answer.
        TextGives (record { files = (F.state files.old).map; job = job.now }) kernels.old.loaded text.now answer kernels.new.loaded) }
    ensures err { OnErr result (kernels.new.loaded ≡ kernels.old.loaded) }
    ensures cause { IfOk result (λ answer. IsAnswerCaused answer (F.state files.old).counts (F.state files.new).counts) }
    ensures files { KeepsFiles (F.state files.old) (F.state files.new) }
    ensures unread { IsNoLoad text.now → F.state files.new ≡ F.state files.old }
{
    if is_command(text) {
        answer_command(alloc, kernels, text, files)
    } else {
        time::answer_text(alloc, job, kernels, text)
    }
}
