//! The whole run: from the words to the output.

ghost use Rattle.std.specs.Prelude.{◌≡◌, ◌≤◌, ◌+◌, ◌≢◌, ℕ, List, Ok, Err, false, map, string_bytes};
ghost use Rattle.st_outside.specs.Causes.{Rose, RoseBeyond};
ghost use Rattle.st_outside.specs.States.{KeepsFiles};
ghost use Rattle.st_batch.specs.Limits.{most_input_bytes};
ghost use Rattle.st_batch.specs.Outcome.{IsAnswered, Outcome, ReadsNothing, Took, around};
ghost use Rattle.st_batch.specs.OutputSteps.{Delivers};
ghost use Rattle.st_batch.specs.Texts as texts;
ghost use Rattle.st_words.specs.Job.{IsGoodJob};
ghost use Rattle.st_words.specs.Reading.{WordsGive};
ghost use Rattle.st_batch.specs.declared.status.Status.TheVariants.{BadSetup, BadWords};

use crate::answer::{put_refused, put_words_refused};
use crate::input::answer_lines;
use crate::session::Session;
use crate::status::Status;
use crate::write::deliver;
use st_outside::{Files, Sink, Source};
use st_refusals::LineFault;
use st_words::{Job, WordFault, read_words};
use std::alloc::Global;

/// Does all that the program does: reads the words, loads the setup, answers the lines and writes the answers.
///
/// The words are those after the program's name. The lines are the one of the words, those of the input, or those of a
/// sample, whose answers are summed up. All answers are written before the input is read again. No file that was opened
/// stays open.
///
/// The result says how the run ended; its number is the program's exit status.
pub fn run<F: Files, I: Source, O: Sink>(
    alloc: Global,
    words: &[String],
    files: &mut F,
    input: &mut I,
    out: &mut O,
) -> Status
    ensures told { Took (O.bytes out.old) (O.bytes out.new) (Outcome
        (around (F.state files.old) (F.state files.new) (I.state input.old) (I.state input.new)) (map string_bytes words.now) result) }

    // An end by a fault has its cause, whether bytes are told or not.
    ensures write_fault { result ≡ Status.WriteFault → Rose (O.faults out.old) (O.faults out.new) }
    ensures read_fault { result ≡ Status.ReadFault → Rose (I.state input.old).faults (I.state input.new).faults }
    ensures too_long { result ≡ Status.InputTooLong → RoseBeyond most_input_bytes (I.state input.old).taken (I.state input.new).taken }

    // The input is not read further than it may be, and not at all where there are no lines of it to answer.
    ensures short { IsAnswered result → (I.state input.new).taken ≤ (I.state input.old).taken + most_input_bytes }
    ensures unread { ReadsNothing (map string_bytes words.now) result → I.state input.new ≡ I.state input.old }

    ensures files { KeepsFiles (F.state files.old) (F.state files.new) }
{
    match read_words(alloc, words) {
        Ok(job) => run_job(alloc, job, files, input, out),
        Err(WordFault::OutOfMemory) => Status::OutOfMemory,
        Err(fault) => refuse_words(alloc, fault, out),
    }
}

/// Loads the setup and answers the lines.
fn run_job<F: Files, I: Source, O: Sink>(
    alloc: Global,
    job: Job,
    files: &mut F,
    input: &mut I,
    out: &mut O,
) -> Status
    requires { IsGoodJob job }
    ensures told { (words : List (List ℕ)) → WordsGive words (Ok job) → Took (O.bytes out.old) (O.bytes out.new) (Outcome
        (around (F.state files.old) (F.state files.new) (I.state input.old) (I.state input.new)) words result) }
    ensures write_fault { result ≡ Status.WriteFault → Rose (O.faults out.old) (O.faults out.new) }
    ensures read_fault { result ≡ Status.ReadFault → Rose (I.state input.old).faults (I.state input.new).faults }
    ensures too_long { result ≡ Status.InputTooLong → RoseBeyond most_input_bytes (I.state input.old).taken (I.state input.new).taken }
    ensures short { IsAnswered result → (I.state input.new).taken ≤ (I.state input.old).taken + most_input_bytes }
    ensures unread { (words : List (List ℕ)) → WordsGive words (Ok job) → ReadsNothing words result → I.state input.new ≡ I.state input.old }
    ensures files { KeepsFiles (F.state files.old) (F.state files.new) }
{
    match Session::open(alloc, job, files) {
        Ok(session) => answer_lines(alloc, session, files, input, out),
        Err(LineFault::OutOfMemory) => Status::OutOfMemory,
        Err(fault) => refuse_setup(alloc, fault, out),
    }
}

/// Writes why the words were refused.
fn refuse_words<O: Sink>(alloc: Global, fault: WordFault, out: &mut O) -> Status
    requires { fault ≢ WordFault.OutOfMemory }
    ensures delivers { Delivers (texts.words_line fault) (BadWords fault) (O.bytes out.old) (O.bytes out.new) result }
    // What is required, for the caller's proof.
    ensures not_memory { fault ≢ WordFault.OutOfMemory }
    ensures write_fault { result ≡ Status.WriteFault → Rose (O.faults out.old) (O.faults out.new) }
{
    let mut line = Vec::new(alloc);
    match put_words_refused(&mut line, &fault) {
        Ok(()) => deliver(out, line.as_slice(), Status::BadWords(fault)),
        Err(_) => Status::OutOfMemory,
    }
}

/// Writes why the setup was refused.
fn refuse_setup<O: Sink>(alloc: Global, fault: LineFault, out: &mut O) -> Status
    requires { fault ≢ LineFault.OutOfMemory }
    ensures delivers { Delivers (texts.setup_line fault) (BadSetup fault) (O.bytes out.old) (O.bytes out.new) result }
    // What is required, for the caller's proof.
    ensures not_memory { fault ≢ LineFault.OutOfMemory }
    ensures write_fault { result ≡ Status.WriteFault → Rose (O.faults out.old) (O.faults out.new) }
{
    let mut line = Vec::new(alloc);
    match put_refused(&mut line, b"bad setup ", &fault) {
        Ok(()) => deliver(out, line.as_slice(), Status::BadSetup(fault)),
        Err(_) => Status::OutOfMemory,
    }
}
