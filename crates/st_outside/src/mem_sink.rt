//! A sink in memory some of whose writes fail.

ghost use Rattle.std.specs.Prelude.{◌≡◌, ◌↔◌, ◌-◌, ◌^◌, ◌<◌, ◌≤◌, [], Some, length, min, IfOk, IsTrue, IsErrOf};
ghost use Rattle.std.specs.Io.KnownBytes.{WriteAppends};
ghost use Rattle.st_outside.specs.Calls.{fails_next, IsFresh, Counted};

use crate::calls::Calls;
use crate::faults::SinkFault;
use crate::safe_sink::SafeSink;
use crate::traits::Sink;
use std::alloc::Global;

/// Bytes that were written, kept in memory. The writes that were listed fail; any other takes as much
/// of its piece as a write may, unless memory is refused.
#[derive(Debug, Drop)]
pub struct MemSink {
    sink: SafeSink,
    calls: Calls,
    /// How many bytes a write takes at most.
    most: usize,
    ghost some: { 0 < most },
}

impl MemSink {
    ghost use Rattle.st_outside.specs.MemSink.{taken_by, calls_of, most_of};

    /// A sink that has taken nothing yet and keeps its bytes in memory from `alloc`. `failing`
    /// lists the writes, counted from 1, that fail.
    pub fn new(alloc: Global, failing: Vec<u32>) -> MemSink
        ensures taken { taken_by result ≡ [] }
        ensures calls { IsFresh (calls_of result) failing.items }
        ensures most { most_of result ≡ 2 ^ 64 - 1 }
    {
        MemSink::short(alloc, failing, usize::MAX)
    }

    /// As [`MemSink::new`], but that a write takes at most `most` bytes, which is at least 1.
    pub fn short(alloc: Global, failing: Vec<u32>, most: usize) -> MemSink
        requires { 0 < most }
        ensures taken { taken_by result ≡ [] }
        ensures calls { IsFresh (calls_of result) failing.items }
        ensures most { most_of result ≡ most }
    {
        MemSink {
            sink: SafeSink::new(alloc),
            calls: Calls::new(failing),
            most,
        }
    }

    /// What was taken so far.
    pub fn bytes(&self) -> &[u8]
        ensures { result.now ≡ taken_by self.now }
    {
        self.sink.bytes()
    }
}

impl Sink for MemSink {
    ghost use Rattle.st_outside.specs.MemSink.{taken_by, calls_of, most_of};

    ghost bytes = { λ s. Some (taken_by s) };

    ghost faults = { λ s. (calls_of s).failed };

    // The trait's clauses, and that exactly the listed writes fail.
    fn write(&mut self, piece: &[u8]) -> Result<usize, SinkFault>
        ensures taken { IfOk result (λ n. n ≡ min (length piece.now) (most_of self.old)) }
        ensures bytes { WriteAppends (Some (taken_by self.old)) (Some (taken_by self.new)) result piece.now }
        ensures listed { IsErrOf result SinkFault.Failed ↔ IsTrue (fails_next (calls_of self.old)) }
        ensures counted { Counted (calls_of self.old) (calls_of self.new) }
        ensures later { (calls_of self.old).failed ≤ (calls_of self.new).failed }
        ensures most { most_of self.new ≡ most_of self.old }
    {
        if self.calls.fails() {
            return Err(SinkFault::Failed);
        }
        let end = piece.len().min(self.most);
        self.sink.write(&piece[..end])
    }
}
