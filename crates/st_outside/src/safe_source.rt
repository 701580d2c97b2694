//! A source in memory that never fails.

ghost use Rattle.std.specs.Prelude.{◌≡◌, Some, IsOk};
ghost use Rattle.std.specs.Io.{ReadsAtMost};
ghost use Rattle.std.specs.Io.KnownBytes.{ReadConsumes};
ghost use Rattle.st_outside.specs.Causes.{Counts};

use crate::bytes::copy_from;
use crate::faults::Failed;
use crate::traits::Source;

/// Bytes in memory, read in order. No read fails.
#[derive(Debug, Drop)]
pub struct SafeSource {
    bytes: Vec<u8>,
    at: usize,
    taken: u64,
}

impl SafeSource {
    ghost use Rattle.st_outside.specs.SafeSource.{rest_of, taken_of};

    /// A source of these bytes.
    pub fn new(bytes: Vec<u8>) -> SafeSource
        ensures left { rest_of result ≡ bytes.items }
        ensures taken { taken_of result ≡ 0 }
    {
        SafeSource {
            bytes,
            at: 0,
            taken: 0,
        }
    }
}

impl Source for SafeSource {
    ghost use Rattle.st_outside.specs.SafeSource.{rest_of, state_of, taken_of};

    ghost state = { state_of };

    // The trait's clauses, and that no read fails.
    fn read(&mut self, buf: &mut [u8]) -> Result<usize, Failed>
        ensures bound { ReadsAtMost result buf.new }
        ensures bytes { ReadConsumes (Some (rest_of self.old)) (Some (rest_of self.new)) result buf.new }
        ensures count { Counts (taken_of self.old) (taken_of self.new) result }
        ensures safe { IsOk result }
    {
        let n = copy_from(self.bytes.as_slice(), self.at, buf);
        self.at += n;
        self.taken = self.taken.saturating_add(n as u64);
        Ok(n)
    }
}
