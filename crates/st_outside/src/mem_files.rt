//! Files in memory some of whose calls fail.

ghost use Rattle.std.specs.Prelude.{◌≡◌, ◌↔◌, ◌-◌, ◌^◌, ◌&&◌, not, is_none, ◌<◌, ◌≤◌, true, false, None, Some, IfOk, IsTrue, IsErr, IsErrOf, IsOk, IsSome, OnOk, OnErr};
ghost use Rattle.std.specs.Io.{ReadsAtMost};
ghost use Rattle.std.specs.Io.KnownBytes.{ReadConsumes};
ghost use Rattle.st_outside.specs.Calls.{fails_next, IsFresh, Counted};
ghost use Rattle.st_outside.specs.Causes.{AreLater, Counts, no_counts, raised_if};
ghost use Rattle.st_outside.specs.Entries.{Opens, bytes_of};

use crate::calls::Calls;
use crate::faults::{Failed, OpenFault};
use crate::file_map::FileMap;
use crate::safe_files::SafeFiles;
use crate::traits::Files;

/// Files in memory. The calls that were listed fail; a name that isn't among the files is missing
/// otherwise.
#[derive(Debug, Drop)]
pub struct MemFiles {
    files: SafeFiles,
    calls: Calls,
    /// How many bytes a read gives at most.
    most: usize,
    ghost some: { 0 < most },
}

impl MemFiles {
    ghost use Rattle.st_outside.specs.MemFiles.{calls_of, counts_of, entries_of, is_open, most_of};

    /// These files, of which none is open. `failing` lists the opens and reads, counted together
    /// from 1, that fail.
    pub fn new(entries: FileMap, failing: Vec<u32>) -> MemFiles
        ensures map { entries_of result ≡ entries }
        ensures closed { is_open result ≡ false }
        ensures counts { counts_of result ≡ no_counts }
        ensures calls { IsFresh (calls_of result) failing.items }
        ensures most { most_of result ≡ 2 ^ 64 - 1 }
    {
        MemFiles::short(entries, failing, usize::MAX)
    }

    /// As [`MemFiles::new`], but that a read gives at most `most` bytes, which is at least 1.
    pub fn short(entries: FileMap, failing: Vec<u32>, most: usize) -> MemFiles
        requires { 0 < most }
        ensures map { entries_of result ≡ entries }
        ensures closed { is_open result ≡ false }
        ensures counts { counts_of result ≡ no_counts }
        ensures calls { IsFresh (calls_of result) failing.items }
        ensures most { most_of result ≡ most }
    {
        MemFiles {
            files: SafeFiles::new(entries),
            calls: Calls::new(failing),
            most,
        }
    }
}

impl Files for MemFiles {
    ghost use Rattle.st_outside.specs.MemFiles.{calls_of, counts_of, entries_of, is_open, left_of, most_of, state_of};

    ghost state = { state_of };

    // The trait's clauses, and that the map and the list of failing calls decide.
    fn open(&mut self, name: &[u8]) -> Result<(), OpenFault>
        ensures ok { OnOk result (is_open self.new ≡ true) }
        ensures bytes { OnOk result
            (Opens (Some (entries_of self.old)) name.now (left_of self.new)) }
        ensures err { OnErr result (is_open self.new ≡ false) }

        ensures map { entries_of self.new ≡ entries_of self.old }
        ensures taken { (counts_of self.new).taken ≡ (counts_of self.old).taken }
        ensures later { AreLater (counts_of self.old) (counts_of self.new) }

        ensures listed { IsErrOf result OpenFault.Failed ↔ IsTrue (fails_next (calls_of self.old)) }
        ensures not_found { IsErrOf result OpenFault.Missing
            ↔ ((fails_next (calls_of self.old) ≡ false)
            × (bytes_of name.now (entries_of self.old) ≡ None)) }
        ensures found { IsOk result ↔ ((fails_next (calls_of self.old) ≡ false)
            × IsSome (bytes_of name.now (entries_of self.old))) }
        ensures misses { (counts_of self.new).misses ≡ raised_if
            (not (fails_next (calls_of self.old))
            && is_none (bytes_of name.now (entries_of self.old)))
            (counts_of self.old).misses }
        ensures counted { Counted (calls_of self.old) (calls_of self.new) }
        ensures most { most_of self.new ≡ most_of self.old }
    {
        if self.calls.fails() {
            self.files.close();
            return Err(OpenFault::Failed);
        }
        self.files.open(name)
    }

    // The trait's clauses, and that exactly the listed reads fail and none is longer than they may be.
    fn read(&mut self, buf: &mut [u8]) -> Result<usize, Failed>
        requires { is_open self.old ≡ true }
        ensures opened { is_open self.new ≡ true }
        ensures bound { ReadsAtMost result buf.new }
        ensures bytes { ReadConsumes (left_of self.old) (left_of self.new) result buf.new }
        ensures map { entries_of self.new ≡ entries_of self.old }
        ensures misses { (counts_of self.new).misses ≡ (counts_of self.old).misses }
        ensures later { AreLater (counts_of self.old) (counts_of self.new) }
        ensures count { Counts (counts_of self.old).taken (counts_of self.new).taken result }
        ensures listed { IsErr result ↔ IsTrue (fails_next (calls_of self.old)) }
        ensures counted { Counted (calls_of self.old) (calls_of self.new) }
        ensures short { IfOk result (λ n. n ≤ most_of self.old) }
        ensures most { most_of self.new ≡ most_of self.old }
    {
        if self.calls.fails() {
            return Err(Failed);
        }
        let room = buf.len().min(self.most);
        self.files.read(&mut buf[..room])
    }

    // The trait's clauses, and that closing isn't one of the counted calls.
    fn close(&mut self)
        ensures closed { is_open self.new ≡ false }
        ensures map { entries_of self.new ≡ entries_of self.old }
        ensures counts { counts_of self.new ≡ counts_of self.old }
        ensures calls { calls_of self.new ≡ calls_of self.old }
        ensures most { most_of self.new ≡ most_of self.old }
    {
        self.files.close();
    }
}
