//! Lists of bytes, as the forms in memory keep and copy them.

ghost use Rattle.std.specs.Prelude.{◌≡◌, ◌-◌, ◌≤◌, length, take, drop, min, IfOk};

use crate::faults::OutOfMemory;
use std::alloc::Global;
use std::marker::Model;

/// Bytes that are owned, seen by contracts as the list of them.
#[derive(Debug, Drop)]
pub struct Bytes {
    items: Vec<u8>,
}

impl Model for Bytes {
    ghost use Rattle.std.specs.Prelude.{ℕ, List};

    ghost Value = { List ℕ };

    ghost view = { λ b. b.items.items };
}

impl Bytes {
    /// The bytes of a vector, which aren't copied.
    pub fn from_vec(items: Vec<u8>) -> Bytes
        ensures { result ≡ items.items }
    {
        Bytes { items }
    }

    /// A copy of some bytes.
    ///
    /// # Errors
    ///
    /// `OutOfMemory`.
    pub fn from_slice(alloc: Global, bytes: &[u8]) -> Result<Bytes, OutOfMemory>
        ensures { IfOk result (λ copy. copy ≡ bytes.now) }
    {
        Ok(Bytes::from_vec(Vec::from_slice(alloc, bytes)?))
    }

    /// All bytes, in order.
    pub fn as_slice(&self) -> &[u8]
        ensures { result.now ≡ self.now }
    {
        self.items.as_slice()
    }
}

/// Copies what stands in `from` at place `at` and after it to the front of `buf`, as far as there
/// is room, and says how many bytes that was.
pub fn copy_from(from: &[u8], at: usize, buf: &mut [u8]) -> usize
    ensures count { result ≡ min (length from.now - at) (length buf.old) }
    ensures bound { result ≤ length buf.new }
    ensures value { take result buf.new ≡ take result (drop at from.now) }
{
    if at >= from.len() {
        return 0;
    }
    let rest = &from[at..];
    let n = rest.len().min(buf.len());
    buf[..n].copy_from_slice(&rest[..n]);
    n
}
