//! Answering the lines that are asked for.

ghost use Rattle.std.specs.Prelude.{◌≡◌, ◌+◌, ◌≢◌, ◌≤◌, false, [], ◌∷◌, ◌++◌, length, MatchOption, IfOk, OnOk, OnErr, IsErrOf};
ghost use Rattle.st_words.specs.Job.{IsWorkInRange};
ghost use Rattle.st_outside.specs.Causes.{Rose, RoseBeyond};
ghost use Rattle.st_outside.specs.States.{FilesState, KeepsFiles};
ghost use Rattle.st_text.specs.Lines as lines;
ghost use Rattle.st_text.specs.Lines.{HasNoFeed};
ghost use Rattle.st_batch.specs.Limits.{most_input_bytes};
ghost use Rattle.st_batch.specs.LinesSteps.{AnswersLine, CutsAtFeed, Finishes, FinishesWriting, LinesEnd, ReadsText, StopsInText, moment};
ghost use Rattle.st_batch.specs.Outcome.{IsAnswered, LinesOutcome, Took, around};

use crate::answering::Answering;
use crate::sample::answer_sample;
use crate::session::Session;
use crate::status::{Status, stopped_by};
use st_decimal::{KText, OutOfMemory};
use st_outside::{Files, Sink, SinkFault, Source};
use st_text::{line_end, without_cr};
use st_words::Work;
use std::alloc::Global;

/// The most bytes that the input may have.
pub const MAX_INPUT: usize = 67_108_864;

/// How many bytes are read at a time.
const PIECE: usize = 65_536;

/// Answers the lines that are asked for, and writes the answers before more of the input is read.
pub fn answer_lines<F: Files, I: Source, O: Sink>(
    alloc: Global,
    session: Session,
    files: &mut F,
    input: &mut I,
    out: &mut O,
) -> Status
    requires { IsWorkInRange session.job.work }
    ensures told { (before : FilesState) → KeepsFiles before (F.state files.old)
        → Took (O.bytes out.old) (O.bytes out.new) (LinesEnd
        (around before (F.state files.new) (I.state input.old) (I.state input.new)) session.job session.loaded result) }
    ensures write_fault { result ≡ Status.WriteFault → Rose (O.faults out.old) (O.faults out.new) }
    ensures read_fault { result ≡ Status.ReadFault → Rose (I.state input.old).faults (I.state input.new).faults }
    ensures too_long { result ≡ Status.InputTooLong → RoseBeyond most_input_bytes (I.state input.old).taken (I.state input.new).taken }
    ensures short { IsAnswered result → (I.state input.new).taken ≤ (I.state input.old).taken + most_input_bytes }
    ensures unread { session.job.work ≢ Work.Batch → I.state input.new ≡ I.state input.old }
    ensures files { KeepsFiles (F.state files.old) (F.state files.new) }
{
    let work = match copied(alloc, &session.job().work) {
        Ok(work) => work,
        Err(_) => return Status::OutOfMemory,
    };
    let mut answering = Answering::new(alloc, session);
    match work {
        Work::Time(line) => answer_one(&mut answering, line.as_slice(), files, out),
        Work::Batch => answer_input(&mut answering, files, input, out),
        Work::Sample { lines, seed } => {
            answer_sample(alloc, &mut answering.session, lines, seed, files, out)
        }
    }
}

/// A copy: the session keeps its own.
fn copied(alloc: Global, work: &Work) -> Result<Work, OutOfMemory>
    ensures { IfOk result (λ copy. copy ≡ work.now) }
{
    match work {
        Work::Time(text) => Ok(Work::Time(KText::from_slice(alloc, text.as_slice())?)),
        Work::Batch => Ok(Work::Batch),
        Work::Sample { lines, seed } => Ok(Work::Sample {
            lines: *lines,
            seed: *seed,
        }),
    }
}

/// Answers the lines of the input.
fn answer_input<F: Files, I: Source, O: Sink>(
    answering: &mut Answering,
    files: &mut F,
    input: &mut I,
    out: &mut O,
) -> Status
    requires gathered { answering.old.gathered.items ≡ [] }
    requires refused { answering.old.refused ≡ false }
    requires batch { answering.old.session.job.work ≡ Work.Batch }
    ensures told { (before : FilesState) → KeepsFiles before (F.state files.old)
        → Took (O.bytes out.old) (O.bytes out.new) (LinesOutcome
        (around before (F.state files.new) (I.state input.old) (I.state input.new)) answering.old.session.job answering.old.session.loaded result) }
    ensures write_fault { result ≡ Status.WriteFault → Rose (O.faults out.old) (O.faults out.new) }
    ensures read_fault { result ≡ Status.ReadFault → Rose (I.state input.old).faults (I.state input.new).faults }
    ensures too_long { result ≡ Status.InputTooLong → RoseBeyond most_input_bytes (I.state input.old).taken (I.state input.new).taken }
    ensures short { IsAnswered result → (I.state input.new).taken ≤ (I.state input.old).taken + most_input_bytes }
    ensures files { KeepsFiles (F.state files.old) (F.state files.new) }
{
    let mut begun = Vec::new(answering.alloc);
    let mut piece = [0u8; PIECE];
    let mut read = 0;
    loop {
        let count = match input.read(&mut piece) {
            Ok(count) => count,
            Err(_) => return Status::ReadFault,
        };
        if count == 0 {
            return answer_last(answering, begun.as_slice(), files, out);
        }
        if count > MAX_INPUT - read {
            return Status::InputTooLong;
        }
        read += count;
        if let Err(fault) = answer_piece(answering, &mut begun, &piece[..count], files, out) {
            return stopped_by(fault);
        }
    }
}

/// Answers the line that has begun, if one has, and ends the run.
fn answer_last<F: Files, O: Sink>(
    answering: &mut Answering,
    begun: &[u8],
    files: &mut F,
    out: &mut O,
) -> Status
    requires { HasNoFeed begun.now }
    ensures finished { Finishes (moment (F.state files.old) (O.bytes out.old) answering.old)
        (F.state files.new) (O.bytes out.new) (lines.lines_of begun.now) result }
    ensures write_fault { result ≡ Status.WriteFault → Rose (O.faults out.old) (O.faults out.new) }
    ensures files { KeepsFiles (F.state files.old) (F.state files.new) }
{
    if begun.is_empty() {
        finish(answering, out)
    } else {
        answer_one(answering, without_cr(begun), files, out)
    }
}

/// Answers one line and ends the run.
fn answer_one<F: Files, O: Sink>(
    answering: &mut Answering,
    line: &[u8],
    files: &mut F,
    out: &mut O,
) -> Status
    ensures finished { Finishes (moment (F.state files.old) (O.bytes out.old) answering.old)
        (F.state files.new) (O.bytes out.new) (line.now ∷ []) result }
    ensures write_fault { result ≡ Status.WriteFault → Rose (O.faults out.old) (O.faults out.new) }
    ensures files { KeepsFiles (F.state files.old) (F.state files.new) }
{
    match answering.answer(line, files) {
        Ok(()) => finish(answering, out),
        Err(_) => Status::OutOfMemory,
    }
}

/// Writes what is gathered when all lines are answered, and says how the run ended.
fn finish<O: Sink>(answering: &mut Answering, out: &mut O) -> Status
    ensures finished { FinishesWriting (O.bytes out.old) (O.bytes out.new) answering.old result }
    ensures write_fault { result ≡ Status.WriteFault → Rose (O.faults out.old) (O.faults out.new) }
{
    match answering.write(out) {
        Ok(()) => answering.status(),
        Err(fault) => stopped_by(fault),
    }
}

/// Answers the lines that end in this piece and writes their answers. What stands after the last of them begins the
/// next line.
fn answer_piece<F: Files, O: Sink>(
    answering: &mut Answering,
    begun: &mut Vec<u8>,
    piece: &[u8],
    files: &mut F,
    out: &mut O,
) -> Result<(), SinkFault>
    requires { HasNoFeed begun.old.items }
    ensures ok { OnOk result (ReadsText (moment (F.state files.old) (O.bytes out.old) answering.old)
        (moment (F.state files.new) (O.bytes out.new) answering.new)
        begun.old.items piece.now begun.new.items) }
    ensures gathered { OnOk result (answering.new.gathered.items ≡ []) }
    ensures err { OnErr result (StopsInText (moment (F.state files.old) (O.bytes out.old) answering.old)
        (F.state files.new) (O.bytes out.new) begun.old.items piece.now) }
    ensures output { O.faults out.old ≤ O.faults out.new }
    ensures cause { IsErrOf result SinkFault.Failed → Rose (O.faults out.old) (O.faults out.new) }
    ensures files { KeepsFiles (F.state files.old) (F.state files.new) }
{
    let mut rest = piece;
    while let Some((end, behind)) = ended_line(rest) {
        answer_ended(answering, begun, end, files, out)?;
        rest = behind;
    }
    begun.extend_from_slice(rest)?;
    answering.write(out)
}

/// The bytes before the first line feed, and those after it.
fn ended_line(text: &[u8]) -> Option<(&[u8], &[u8])>
    ensures { MatchOption result (HasNoFeed text.now) (λ parts. CutsAtFeed text.now parts.0.now parts.1.now) }
{
    match line_end(text) {
        Some(end) => Some((&text[..end], &text[end + 1..])),
        None => None,
    }
}

/// Answers the line that has begun and ends with these bytes, which a line feed follows, and writes where enough is
/// gathered.
fn answer_ended<F: Files, O: Sink>(
    answering: &mut Answering,
    begun: &mut Vec<u8>,
    end: &[u8],
    files: &mut F,
    out: &mut O,
) -> Result<(), SinkFault>
    requires begun { HasNoFeed begun.old.items }
    requires end { HasNoFeed end.now }
    ensures ok { OnOk result (ReadsText (moment (F.state files.old) (O.bytes out.old) answering.old)
        (moment (F.state files.new) (O.bytes out.new) answering.new)
        begun.old.items (end.now ++ (10 ∷ [])) begun.new.items) }
    ensures err { OnErr result (StopsInText (moment (F.state files.old) (O.bytes out.old) answering.old)
        (F.state files.new) (O.bytes out.new) begun.old.items (end.now ++ (10 ∷ []))) }
    ensures output { O.faults out.old ≤ O.faults out.new }
    ensures cause { IsErrOf result SinkFault.Failed → Rose (O.faults out.old) (O.faults out.new) }
    ensures files { KeepsFiles (F.state files.old) (F.state files.new) }
{
    gather_ended(answering, begun, end, files)?;
    answering.write_enough(out)
}

/// Answers the line that has begun and ends with these bytes. Where memory is refused nothing is said of what has
/// begun.
fn gather_ended<F: Files>(
    answering: &mut Answering,
    begun: &mut Vec<u8>,
    end: &[u8],
    files: &mut F,
) -> Result<(), OutOfMemory>
    ensures ok { OnOk result (AnswersLine (F.state files.old) (F.state files.new)
        answering.old answering.new (lines.without_cr (begun.old.items ++ end.now))) }
    ensures begun { OnOk result (begun.new.items ≡ []) }
    ensures files { KeepsFiles (F.state files.old) (F.state files.new) }
{
    if begun.is_empty() {
        return answering.answer(without_cr(end), files);
    }
    begun.extend_from_slice(end)?;
    answering.answer(without_cr(begun.as_slice()), files)?;
    begun.clear();
    Ok(())
}
