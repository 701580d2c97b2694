//! The line that a number makes for a job.

ghost use Rattle.std.specs.Prelude.{◌≡◌, ◌≢◌, codes, IfOk, true};
ghost use Rattle.st_answers.specs.Ready.{IsReady};
ghost use Rattle.st_answers.specs.Sides.{is_clock};
ghost use Rattle.st_samples.specs.JobLine.{IsClockLine, IsSampleLine};

use crate::generator::tick_of;
use crate::line::{label_line, seconds_line};
use st_decimal::{Line, OutOfMemory};
use st_forms::Form;
use st_routes::{TickForm, spell_tick};
use st_tables::{Kernels, TableFault};
use st_words::{FromKind, Job};
use std::alloc::{AllocError, Global};

/// The line that x makes for a job whose clock is known: a label for dates, seconds for what is or may be seconds, and for a clock
/// the string or the number of one of the ticks of the clock that the loaded kernels give, or `0` where they refuse it. It finds
/// that clock, and leaves the kernels as they are loaded.
///
/// # Errors
///
/// Want of memory alone.
pub fn job_line(
    alloc: Global,
    job: &Job,
    kernels: &mut Kernels,
    x: u64,
) -> Result<Line, OutOfMemory>
    requires { IsReady job.now }
    ensures line { IfOk result (IsSampleLine job.now kernels.old.loaded x) }
    ensures loaded { kernels.new.loaded ≡ kernels.old.loaded }
{
    match job.form {
        FromKind::Time(Form::Calendar) => label_line(alloc, x),
        FromKind::Time(_) => seconds_line(alloc, x),
        FromKind::Clock => clock_line(alloc, job, kernels, TickForm::Clock, x),
        FromKind::Ticks => clock_line(alloc, job, kernels, TickForm::Ticks, x),
    }
}

/// The line of a clock.
fn clock_line(
    alloc: Global,
    job: &Job,
    kernels: &mut Kernels,
    form: TickForm,
    x: u64,
) -> Result<Line, OutOfMemory>
    requires ready { IsReady job.now }
    requires clock { is_clock job.now.from ≡ true }
    ensures line { IfOk result (IsClockLine job.now kernels.old.loaded form x) }
    ensures loaded { kernels.new.loaded ≡ kernels.old.loaded }
{
    let Some(n) = job.clock else { unreachable!() };
    match kernels.find_clock(n) {
        Ok(()) => {
            let clock = kernels.clock();
            spell_tick(alloc, clock, tick_of(x, clock.face().total()), form)
        }
        Err(fault) => refused_line(alloc, fault),
    }
}

/// The line of a clock that the kernels refuse so. Want of memory refuses none.
fn refused_line(alloc: Global, fault: TableFault) -> Result<Line, OutOfMemory>
    ensures { IfOk result (λ line. (fault ≢ TableFault.OutOfMemory) × (line ≡ codes "0")) }
{
    match fault {
        TableFault::OutOfMemory => Err(AllocError),
        _ => Line::from_slice(alloc, b"0"),
    }
}
