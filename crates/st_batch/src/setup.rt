//! The setup of a job: the kernels that its file names, and the clock.

ghost use Rattle.std.specs.Prelude.{◌≡◌, ◌≢◌, [], false, Ok, Err, IfOk, IfErr, OnOk, OnErr};
ghost use Rattle.st_answers.specs.Sides as sides;
ghost use Rattle.st_outside.specs.States.{KeepsFiles};
ghost use Rattle.st_batch.specs.Causes.{IsCaused};
ghost use Rattle.st_refusals.specs.Faults.{line_fault};
ghost use Rattle.st_batch.specs.Setup.{ClockGives, LoadsGive, asks_clock};

use crate::load::load_file;
use st_dates::System;
use st_decimal::KText;
use st_outside::Files;
use st_pool::Pool;
use st_refusals::KernelFault;
use st_tables::Kernels;
use st_words::{IdFault, Job, setup_clock};
use std::alloc::Global;

/// Loads the files of these names one after the other, each under its own name.
///
/// # Errors
///
/// Why the first of them isn't loaded that can't be.
pub fn load_files<F: Files>(
    alloc: Global,
    kernels: &mut Kernels,
    names: &[KText],
    files: &mut F,
) -> Result<(), KernelFault>
    ensures ok { OnOk result (LoadsGive (F.state files.old).map kernels.old.loaded names.now (Ok kernels.new.loaded)) }
    ensures err { IfErr result (λ fault. fault ≢ KernelFault.OutOfMemory → LoadsGive (F.state files.old).map kernels.old.loaded names.now (Err fault)) }
    ensures cause { IfErr result (λ fault. IsCaused (line_fault fault) (F.state files.old).counts (F.state files.new).counts) }
    ensures closed { (F.state files.old).opened ≡ false → (F.state files.new).opened ≡ false }
    ensures files { KeepsFiles (F.state files.old) (F.state files.new) }
{
    for name in names {
        if let Err(fault) = load_file(alloc, kernels, name.as_slice(), files) {
            return Err(fault);
        }
    }
    Ok(())
}

/// The job with its clock: the one of the words, or the one that the loaded kernels name where a side asks for it.
///
/// # Errors
///
/// Why they name none.
pub fn find_clock(mut job: Job, pool: &Pool) -> Result<Job, IdFault>
    ensures { ClockGives (asks_clock job) job pool.now result }
{
    if has_clock(&job) && job.clock.is_none() {
        job.clock = Some(setup_clock(pool)?);
    }
    Ok(job)
}

/// Whether a side of the job is a clock.
fn has_clock(job: &Job) -> bool
    ensures { result ≡ sides.has_clock job.now }
{
    job.from == System::Sclk || job.to == System::Sclk
}
