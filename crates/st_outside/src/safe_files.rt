//! Files in memory that never fail.

ghost use Rattle.std.specs.Prelude.{◌≡◌, ◌↔◌, ◌≤◌, true, false, None, Some, IsOk, IsSome, OnOk, OnErr, IsErrOf, is_none};
ghost use Rattle.std.specs.Io.{ReadsAtMost};
ghost use Rattle.std.specs.Io.KnownBytes.{ReadConsumes};
ghost use Rattle.st_outside.specs.Causes.{AreLater, Counts, no_counts, raised_if};
ghost use Rattle.st_outside.specs.Entries.{Opens, bytes_of};

use crate::bytes::copy_from;
use crate::faults::{Failed, OpenFault};
use crate::file_map::FileMap;
use crate::traits::Files;

/// Files in memory. A name that isn't among them is missing, and nothing else fails.
#[derive(Debug, Drop)]
pub struct SafeFiles {
    entries: FileMap,
    reading: Option<Reading>,
    misses: u64,
    taken: u64,
}

/// The open file: where it stands in the map, and how many of its bytes have been read.
#[derive(Clone, Copy, Debug)]
struct Reading {
    place: usize,
    at: usize,
}

impl SafeFiles {
    ghost use Rattle.st_outside.specs.SafeFiles.{counts_of, entries_of, is_open};

    /// These files, of which none is open.
    pub fn new(entries: FileMap) -> SafeFiles
        ensures map { entries_of result ≡ entries }
        ensures closed { is_open result ≡ false }
        ensures counts { counts_of result ≡ no_counts }
    {
        SafeFiles {
            entries,
            reading: None,
            misses: 0,
            taken: 0,
        }
    }
}

impl Files for SafeFiles {
    ghost use Rattle.st_outside.specs.SafeFiles.{counts_of, entries_of, is_open, left_of, state_of};

    ghost state = { state_of };

    // The trait's clauses, and that the map alone decides.
    fn open(&mut self, name: &[u8]) -> Result<(), OpenFault>
        ensures ok { OnOk result (is_open self.new ≡ true) }
        ensures bytes { OnOk result
            (Opens (Some (entries_of self.old)) name.now (left_of self.new)) }
        ensures err { OnErr result (is_open self.new ≡ false) }

        ensures map { entries_of self.new ≡ entries_of self.old }
        ensures taken { (counts_of self.new).taken ≡ (counts_of self.old).taken }
        ensures later { AreLater (counts_of self.old) (counts_of self.new) }
        ensures misses { (counts_of self.new).misses
            ≡ raised_if (is_none (bytes_of name.now (entries_of self.old)))
            (counts_of self.old).misses }

        ensures found { IsOk result ↔ IsSome (bytes_of name.now (entries_of self.old)) }
        ensures not_found { IsErrOf result OpenFault.Missing
            ↔ (bytes_of name.now (entries_of self.old) ≡ None) }
    {
        self.reading = None;
        match self.entries.place_of(name) {
            Some(place) => {
                self.reading = Some(Reading { place, at: 0 });
                Ok(())
            }
            None => {
                self.misses = self.misses.saturating_add(1);
                Err(OpenFault::Missing)
            }
        }
    }

    // The trait's clauses, and that no read fails.
    fn read(&mut self, buf: &mut [u8]) -> Result<usize, Failed>
        requires { is_open self.old ≡ true }
        ensures opened { is_open self.new ≡ true }
        ensures bound { ReadsAtMost result buf.new }
        ensures bytes { ReadConsumes (left_of self.old) (left_of self.new) result buf.new }
        ensures map { entries_of self.new ≡ entries_of self.old }
        ensures misses { (counts_of self.new).misses ≡ (counts_of self.old).misses }
        ensures later { AreLater (counts_of self.old) (counts_of self.new) }
        ensures count { Counts (counts_of self.old).taken (counts_of self.new).taken result }
        ensures safe { IsOk result }
    {
        let Some(reading) = &mut self.reading else {
            unreachable!()
        };
        let n = copy_from(self.entries.bytes_at(reading.place), reading.at, buf);
        reading.at += n;
        self.taken = self.taken.saturating_add(n as u64);
        Ok(n)
    }

    fn close(&mut self) {
        self.reading = None;
    }
}
