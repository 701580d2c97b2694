//! A source in memory some of whose reads fail.

ghost use Rattle.std.specs.Prelude.{◌≡◌, ◌↔◌, ◌-◌, ◌^◌, ◌<◌, ◌≤◌, Some, IfOk, IsTrue, IsErr};
ghost use Rattle.std.specs.Io.{ReadsAtMost};
ghost use Rattle.std.specs.Io.KnownBytes.{ReadConsumes};
ghost use Rattle.st_outside.specs.Calls.{fails_next, IsFresh, Counted};
ghost use Rattle.st_outside.specs.Causes.{Counts};

use crate::calls::Calls;
use crate::faults::Failed;
use crate::safe_source::SafeSource;
use crate::traits::Source;

/// Bytes in memory, read in order. The reads that were listed fail, and no other.
#[derive(Debug, Drop)]
pub struct MemSource {
    source: SafeSource,
    calls: Calls,
    /// How many bytes a read gives at most.
    most: usize,
    ghost some: { 0 < most },
}

impl MemSource {
    ghost use Rattle.st_outside.specs.MemSource.{rest_of, taken_of, calls_of, most_of};

    /// A source of these bytes. `failing` lists the reads, counted from 1, that fail.
    pub fn new(bytes: Vec<u8>, failing: Vec<u32>) -> MemSource
        ensures left { rest_of result ≡ bytes.items }
        ensures taken { taken_of result ≡ 0 }
        ensures calls { IsFresh (calls_of result) failing.items }
        ensures most { most_of result ≡ 2 ^ 64 - 1 }
    {
        MemSource::short(bytes, failing, usize::MAX)
    }

    /// As [`MemSource::new`], but that a read gives at most `most` bytes, which is at least 1.
    pub fn short(bytes: Vec<u8>, failing: Vec<u32>, most: usize) -> MemSource
        requires { 0 < most }
        ensures left { rest_of result ≡ bytes.items }
        ensures taken { taken_of result ≡ 0 }
        ensures calls { IsFresh (calls_of result) failing.items }
        ensures most { most_of result ≡ most }
    {
        MemSource {
            source: SafeSource::new(bytes),
            calls: Calls::new(failing),
            most,
        }
    }
}

impl Source for MemSource {
    ghost use Rattle.st_outside.specs.MemSource.{rest_of, taken_of, calls_of, most_of, state_of};

    ghost state = { state_of };

    // The trait's clauses, and that exactly the listed reads fail and none is longer than they may be.
    fn read(&mut self, buf: &mut [u8]) -> Result<usize, Failed>
        ensures bound { ReadsAtMost result buf.new }
        ensures bytes { ReadConsumes (Some (rest_of self.old)) (Some (rest_of self.new)) result buf.new }
        ensures count { Counts (taken_of self.old) (taken_of self.new) result }
        ensures listed { IsErr result ↔ IsTrue (fails_next (calls_of self.old)) }
        ensures counted { Counted (calls_of self.old) (calls_of self.new) }
        ensures later { (calls_of self.old).failed ≤ (calls_of self.new).failed }
        ensures short { IfOk result (λ n. n ≤ most_of self.old) }
        ensures most { most_of self.new ≡ most_of self.old }
    {
        if self.calls.fails() {
            return Err(Failed);
        }
        let room = buf.len().min(self.most);
        self.source.read(&mut buf[..room])
    }
}
