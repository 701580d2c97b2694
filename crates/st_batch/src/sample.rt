//! Answering the lines of a sample, and summing their answers up. No line and no answer is kept.

ghost use Rattle.std.specs.Prelude.{◌≡◌, ◌≢◌, ◌≤◌, ◌<◌, [], ◌∷◌, ◌++◌, IfOk, OnOk};
ghost use Rattle.st_outside.specs.Causes.{Rose};
ghost use Rattle.st_samples.specs.Summary.{summary_text, with_answer};
ghost use Rattle.st_samples.specs.declared.summary.TheConstants.{MOST_LINES};
ghost use Rattle.st_batch.specs.OutputSteps.{Delivers, IsCut};
ghost use Rattle.st_batch.specs.SampleSteps.{SampleEnds, SumsLine, SumsUp, status_for};
ghost use Rattle.st_batch.specs.Setting.{setting};
ghost use Rattle.st_batch.specs.Texts.{as_counted};
ghost use Rattle.st_batch.specs.declared.answer.Answer.TheVariants.{Refused};

use crate::answer::Answer;
use crate::session::Session;
use crate::status::Status;
use crate::write::deliver;
use st_decimal::OutOfMemory;
use st_outside::{Files, Sink};
use st_refusals::{LineFault, put_refusal};
use st_samples::{Summary, next, put_summary};
use std::alloc::Global;

/// Answers so many lines of a sample, begun with the seed, and writes the summary of their answers.
pub fn answer_sample<F: Files, O: Sink>(
    alloc: Global,
    session: &mut Session,
    lines: u32,
    seed: u64,
    files: &mut F,
    out: &mut O,
) -> Status
    requires { lines ≤ MOST_LINES }
    ensures ends { SampleEnds (setting (F.state files.old).map session.old) (F.state files.old).counts session.old.loaded seed lines
        (O.bytes out.old) (O.bytes out.new) result }
    ensures write_fault { result ≡ Status.WriteFault → Rose (O.faults out.old) (O.faults out.new) }
    ensures files { F.state files.new ≡ F.state files.old }
{
    match sum_up(alloc, session, lines, seed, files) {
        Ok(summary) => write_summary(alloc, &summary, out),
        Err(_) => Status::OutOfMemory,
    }
}

/// The summary of the answers to so many lines.
fn sum_up<F: Files>(
    alloc: Global,
    session: &mut Session,
    lines: u32,
    seed: u64,
    files: &mut F,
) -> Result<Summary, OutOfMemory>
    requires { lines ≤ MOST_LINES }
    ensures ok { IfOk result (SumsUp (setting (F.state files.old).map session.old) (F.state files.old).counts session.old.loaded seed lines) }
    ensures files { F.state files.new ≡ F.state files.old }
{
    let mut summary = Summary::new();
    let mut x = seed;
    while summary.lines() < lines {
        x = next(x);
        sum_line(alloc, session, x, &mut summary, files)?;
    }
    Ok(summary)
}

/// Answers the line of x, and counts its answer.
fn sum_line<F: Files>(
    alloc: Global,
    session: &mut Session,
    x: u64,
    summary: &mut Summary,
    files: &mut F,
) -> Result<(), OutOfMemory>
    requires { summary.old.lines < MOST_LINES }
    ensures ok { OnOk result (SumsLine (setting (F.state files.old).map session.old) (F.state files.old).counts session.old.loaded x summary.old summary.new) }
    ensures session { session.new ≡ session.old }
    ensures files { F.state files.new ≡ F.state files.old }
{
    let line = session.sample_line(x)?;
    let answer = session.answer_line(line.as_slice(), files)?;
    count(alloc, summary, &answer)
}

/// Counts an answer as it is written, without its line feed.
fn count(alloc: Global, summary: &mut Summary, answer: &Answer) -> Result<(), OutOfMemory>
    requires room { summary.old.lines < MOST_LINES }
    requires not_memory { answer.now ≢ Refused LineFault.OutOfMemory }
    ensures { OnOk result (summary.new ≡ with_answer summary.old (as_counted answer.now)) }
{
    match answer {
        Answer::Text(text) => summary.add_text(text.as_slice()),
        Answer::Refused(fault) => {
            let mut line = Vec::from_slice(alloc, b"refused ")?;
            put_refusal(&mut line, fault)?;
            summary.add_refusal(line.as_slice());
        }
    }
    Ok(())
}

/// Writes a summary as the whole output of a run, and says how the run ended.
fn write_summary<O: Sink>(alloc: Global, summary: &Summary, out: &mut O) -> Status
    ensures delivers { Delivers (summary_text summary.now ++ (10 ∷ [])) (status_for summary.now) (O.bytes out.old) (O.bytes out.new) result }
    ensures write_fault { result ≡ Status.WriteFault → Rose (O.faults out.old) (O.faults out.new) }
{
    let mut line = Vec::new(alloc);
    match put_line(&mut line, summary) {
        Ok(()) => deliver(out, line.as_slice(), status_of(summary)),
        Err(_) => Status::OutOfMemory,
    }
}

/// Appends a summary as a line.
fn put_line(out: &mut Vec<u8>, summary: &Summary) -> Result<(), OutOfMemory>
    ensures { OnOk result (out.new.items ≡ out.old.items ++ (summary_text summary.now ++ (10 ∷ []))) }
{
    put_summary(out, summary)?;
    out.push(b'\n')?;
    Ok(())
}

/// How a run ends whose answers are summed up so.
fn status_of(summary: &Summary) -> Status
    ensures value { result ≡ status_for summary.now }
    ensures whole { IsCut result → ⊥ }
{
    if summary.refused() == 0 {
        Status::Done
    } else {
        Status::SomeRefused
    }
}
