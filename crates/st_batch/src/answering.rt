//! Answering lines and gathering their answers until they are written.

ghost use Rattle.std.specs.Prelude.{◌≡◌, ◌≤◌, ◌<◌, length, false, if◌then◌else◌, [], OnOk, OnErr, IsErrOf};
ghost use Rattle.std.specs.Io.KnownBytes.{Appends};
ghost use Rattle.st_outside.specs.Causes.{Rose};
ghost use Rattle.st_outside.specs.States.{KeepsFiles};
ghost use Rattle.st_batch.specs.LinesSteps.{AnswersLine, Writes};
ghost use Rattle.st_batch.specs.OutputSteps.{TakesPrefix};

use crate::answer::{Answer, put_answer};
use crate::session::Session;
use crate::status::Status;
use crate::write::write_all;
use st_decimal::OutOfMemory;
use st_outside::{Files, Sink, SinkFault};
use std::alloc::Global;

/// How many bytes of answers are gathered before they are written, unless the input is read again before.
const ENOUGH: usize = 65_536;

/// A session, and what it has answered and not yet written.
#[derive(Debug, Drop)]
pub struct Answering {
    pub alloc: Global,
    pub session: Session,
    pub gathered: Vec<u8>,
    /// The room in which an answer is written before it is gathered.
    pub line: Vec<u8>,
    /// Whether a line was refused.
    pub refused: bool,
}

impl Answering {
    /// Nothing is answered yet.
    pub fn new(alloc: Global, session: Session) -> Answering
        ensures session { result.session ≡ session }
        ensures gathered { result.gathered.items ≡ [] }
        ensures refused { result.refused ≡ false }
    {
        Answering {
            alloc,
            session,
            gathered: Vec::new(alloc),
            line: Vec::new(alloc),
            refused: false,
        }
    }

    /// Answers one line. Where memory is refused nothing of its answer is gathered.
    pub fn answer<F: Files>(&mut self, line: &[u8], files: &mut F) -> Result<(), OutOfMemory>
        ensures ok { OnOk result (AnswersLine (F.state files.old) (F.state files.new)
            self.old self.new line.now) }
        ensures err { OnErr result (self.new.gathered.items ≡ self.old.gathered.items) }
        ensures files { KeepsFiles (F.state files.old) (F.state files.new) }
    {
        let answer = self.session.answer_line(line, files)?;
        self.line.clear();
        put_answer(&mut self.line, &answer)?;
        self.gathered.extend_from_slice(self.line.as_slice())?;
        self.refused = self.refused || matches!(answer, Answer::Refused(_));
        Ok(())
    }

    /// Writes what is gathered once that is `ENOUGH` bytes.
    pub fn write_enough<O: Sink>(&mut self, out: &mut O) -> Result<(), SinkFault>
        ensures ok { OnOk result (Writes (O.bytes out.old) (O.bytes out.new) self.old self.new) }
        ensures few { OnOk result (length self.new.gathered.items < 65536) }
        ensures err { OnErr result (TakesPrefix (O.bytes out.old) (O.bytes out.new) self.old.gathered.items) }
        ensures later { O.faults out.old ≤ O.faults out.new }
        ensures cause { IsErrOf result SinkFault.Failed → Rose (O.faults out.old) (O.faults out.new) }
    {
        if self.gathered.len() < ENOUGH {
            return Ok(());
        }
        self.write(out)
    }

    /// Writes what is gathered.
    pub fn write<O: Sink>(&mut self, out: &mut O) -> Result<(), SinkFault>
        ensures ok { OnOk result (Appends (O.bytes out.old) (O.bytes out.new) self.old.gathered.items) }
        ensures gathered { OnOk result (self.new.gathered.items ≡ []) }
        ensures err { OnErr result (TakesPrefix (O.bytes out.old) (O.bytes out.new) self.old.gathered.items) }
        ensures session { self.new.session ≡ self.old.session }
        ensures refused { self.new.refused ≡ self.old.refused }
        ensures later { O.faults out.old ≤ O.faults out.new }
        ensures cause { IsErrOf result SinkFault.Failed → Rose (O.faults out.old) (O.faults out.new) }
    {
        write_all(out, self.gathered.as_slice())?;
        self.gathered.clear();
        Ok(())
    }

    /// How a run ends that has answered all lines.
    pub fn status(&self) -> Status
        ensures { result ≡ (if self.now.refused then Status.SomeRefused else Status.Done) }
    {
        if self.refused {
            Status::SomeRefused
        } else {
            Status::Done
        }
    }
}
