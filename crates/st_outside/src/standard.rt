//! Standard input and standard output.

ghost use Rattle.std.specs.Prelude.{◌≡◌, ◌<◌, length, None, IfOk};
ghost use Rattle.std.specs.Io.{WritesAtMost};
ghost use Rattle.st_outside.specs.Causes.{HasCause};
ghost use Rattle.st_outside.specs.Standard.{IsHanded};

use crate::faults::{Failed, SinkFault};
use crate::tally::Tally;
use crate::traits::{Sink, Source};
use std::io::{Read, Write};

/// The bytes of a reader, such as standard input. They are told where the reader tells them.
#[derive(Drop)]
pub struct StdIn<I: Read + Drop> {
    reader: I,
    tally: Tally,
}

impl<I: Read + Drop> StdIn<I> {
    /// A source that reads from `reader`.
    pub fn new(reader: I) -> StdIn<I>
        ensures { ⟦<StdIn<I> as Source>⟧.state result
            ≡ record { left = I.remaining reader; faults = 0; taken = 0 } }
    {
        StdIn {
            reader,
            tally: Tally::new(),
        }
    }
}

impl<I: Read + Drop> Source for StdIn<I> {
    ghost use Rattle.st_outside.specs.Tally.{counts_of};

    ghost state = { λ s. record {
      left = I.remaining s.reader;
      faults = (counts_of s.tally).faults;
      taken = (counts_of s.tally).taken;
    } };

    fn read(&mut self, buf: &mut [u8]) -> Result<usize, Failed> {
        self.tally.hand_on(self.reader.read(buf))
    }
}

/// A writer that is flushed at each write, such as standard output. What it has taken isn't told,
/// since a writer whose flush has failed may have bytes that it won't give on.
#[derive(Drop)]
pub struct StdOut<W: Write + Drop> {
    writer: W,
    faults: u64,
}

impl<W: Write + Drop> StdOut<W> {
    ghost use Rattle.st_outside.specs.Standard.{written};

    /// A sink that writes to `writer`.
    pub fn new(writer: W) -> StdOut<W>
        ensures faults { ⟦<StdOut<W> as Sink>⟧.faults result ≡ 0 }
        ensures written { written W.contents result ≡ W.contents writer }
    {
        StdOut { writer, faults: 0 }
    }
}

impl<W: Write + Drop> Sink for StdOut<W> {
    ghost use Rattle.st_outside.specs.Standard.{faults_of, written};

    ghost bytes = { λ _. None };

    ghost faults = { faults_of };

    // The trait's clauses, and that the writer was handed the bytes that are told as taken and no
    // other. A device that takes nothing of a nonempty piece has failed, since no later write would
    // do better.
    fn write(&mut self, piece: &[u8]) -> Result<usize, SinkFault>
        ensures bound { WritesAtMost result piece.now }
        ensures progress { IfOk result (λ n. 0 < length piece.now → 0 < n) }
        ensures handed { IsHanded (written W.contents self.old) (written W.contents self.new) result piece.now }
        ensures counted { HasCause (faults_of self.old) (faults_of self.new) result }
    {
        if let Ok(n) = self.writer.write(piece)
            && (n > 0 || piece.is_empty())
            && self.writer.flush().is_ok()
        {
            return Ok(n);
        }
        self.faults = self.faults.saturating_add(1);
        Err(SinkFault::Failed)
    }
}
