//! The answer of a time as that of a line.

ghost use Rattle.std.specs.Prelude.{IfOk, ◌≡◌};
ghost use Rattle.st_answers.specs.Ready.{IsReady};
ghost use Rattle.st_batch.specs.Times.{TimeAnswered};

use crate::answer::Answer;
use st_answers::{AnswerFault, answer_time};
use st_decimal::OutOfMemory;
use st_refusals::refusal_of;
use st_tables::Kernels;
use st_words::Job;
use std::alloc::{AllocError, Global};

/// The answer of a text that is no command.
pub fn answer_text(
    alloc: Global,
    job: &Job,
    kernels: &mut Kernels,
    text: &[u8],
) -> Result<Answer, OutOfMemory>
    requires { IsReady job.now }
    ensures answered { IfOk result (TimeAnswered job.now kernels.old.loaded text.now) }
    ensures loaded { kernels.new.loaded ≡ kernels.old.loaded }
{
    match answer_time(alloc, job, kernels, text) {
        Ok(said) => Ok(Answer::Text(said)),
        Err(AnswerFault::OutOfMemory) => Err(AllocError),
        Err(fault) => Ok(Answer::Refused(refusal_of(job.clock.unwrap_or(0), fault))),
    }
}
