//! A sink in memory that never fails.

ghost use Rattle.std.specs.Prelude.{◌≡◌, [], Some, length, IfOk, IsOkUnless};
ghost use Rattle.std.specs.Io.KnownBytes.{WriteAppends};

use crate::faults::SinkFault;
use crate::traits::Sink;
use std::alloc::Global;

/// Bytes that were written, kept in memory. A write takes its whole piece, unless memory is
/// refused.
#[derive(Debug, Drop)]
pub struct SafeSink {
    bytes: Vec<u8>,
}

impl SafeSink {
    ghost use Rattle.st_outside.specs.SafeSink.{taken_by};

    /// A sink that has taken nothing yet and keeps its bytes in memory from `alloc`.
    pub fn new(alloc: Global) -> SafeSink
        ensures { taken_by result ≡ [] }
    {
        SafeSink {
            bytes: Vec::new(alloc),
        }
    }

    /// What was taken so far.
    pub fn bytes(&self) -> &[u8]
        ensures { result.now ≡ taken_by self.now }
    {
        self.bytes.as_slice()
    }
}

impl Sink for SafeSink {
    ghost use Rattle.st_outside.specs.SafeSink.{taken_by};

    ghost bytes = { λ s. Some (taken_by s) };

    ghost faults = { λ _. 0 };

    // The trait's clauses, and that nothing fails but memory.
    fn write(&mut self, piece: &[u8]) -> Result<usize, SinkFault>
        ensures whole { IfOk result (λ n. n ≡ length piece.now) }
        ensures bytes { WriteAppends (Some (taken_by self.old)) (Some (taken_by self.new)) result piece.now }
        ensures safe { IsOkUnless result SinkFault.OutOfMemory }
    {
        self.bytes.extend_from_slice(piece)?;
        Ok(piece.len())
    }
}
