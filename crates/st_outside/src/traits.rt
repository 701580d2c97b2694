//! The three traits of the outside.
//!
//! What an implementation holds is an option in their contracts: `Some` where it tells its bytes,
//! as those in memory do, and `None` where it can't, as those over real files, of which std tells
//! nothing. Its counts are always told. A count goes up to the last value of its type and stands
//! still there, and a call that succeeds raises no count of what went wrong.

ghost use Rattle.std.specs.Prelude.{◌≡◌, ℕ, ◌<◌, ◌≤◌, List, length, true, false, Option, IfOk, OnOk, OnErr, IsErrOf};
ghost use Rattle.std.specs.Io.{ReadsAtMost, WritesAtMost};
ghost use Rattle.std.specs.Io.KnownBytes.{ReadConsumes, WriteAppends};
ghost use Rattle.st_outside.specs.Causes.{AreLater, Counts, HasCause, Rose};
ghost use Rattle.st_outside.specs.Entries.{Opens, IsAbsent};
ghost use Rattle.st_outside.specs.States.{FilesState, InputState};

use crate::faults::{Failed, OpenFault, SinkFault};

/// Bytes that are read in order, such as a program's input.
pub trait Source {
    // the bytes that are still to be read, where they are told, how many reads have failed, and how
    // many bytes have been given
    ghost state: { Self → InputState };

    /// Puts the next bytes at the front of `buf` and says how many. `Ok(0)` for a buffer with room
    /// means that none are left.
    ///
    /// # Errors
    ///
    /// [`Failed`] where the outside gave no answer; what is left is then as before.
    fn read(&mut self, buf: &mut [u8]) -> Result<usize, Failed>
        ensures bound { ReadsAtMost result buf.new }
        ensures bytes { ReadConsumes (state self.old).left (state self.new).left result buf.new }
        ensures count { Counts (state self.old).taken (state self.new).taken result }
        ensures cause { HasCause (state self.old).faults (state self.new).faults result };
}

/// A place that takes bytes, such as a program's output.
pub trait Sink {
    // the bytes that were taken, where they are told
    ghost bytes: { Self → Option (List ℕ) };

    // how many writes have failed
    ghost faults: { Self → ℕ };

    /// Takes bytes from the front of `piece` and says how many: at least one, unless the piece is
    /// empty.
    ///
    /// # Errors
    ///
    /// [`SinkFault`]; nothing of the piece was then taken, where that is told.
    fn write(&mut self, piece: &[u8]) -> Result<usize, SinkFault>
        ensures bound { WritesAtMost result piece.now }
        ensures progress { IfOk result (λ n. 0 < length piece.now → 0 < n) }
        ensures bytes { WriteAppends (bytes self.old) (bytes self.new) result piece.now }
        ensures later { faults self.old ≤ faults self.new }
        ensures clean { OnOk result (faults self.new ≡ faults self.old) }
        ensures cause { IsErrOf result SinkFault.Failed → Rose (faults self.old) (faults self.new) };
}

/// Files that are opened by name and read one at a time.
pub trait Files {
    // the files by their names, where they are told, whether one is open, what is still to be read
    // of it, where that is told, and the counts of names that weren't found, of calls that failed
    // and of bytes that were given
    ghost state: { Self → FilesState };

    /// Closes the open file, if there is one, and opens the file of this name at its start.
    ///
    /// # Errors
    ///
    /// [`OpenFault`]; no file is then open.
    fn open(&mut self, name: &[u8]) -> Result<(), OpenFault>
        ensures ok { OnOk result ((state self.new).opened ≡ true) }
        ensures bytes { OnOk result (Opens (state self.old).map name.now (state self.new).left) }
        ensures clean { OnOk result ((state self.new).counts ≡ (state self.old).counts) }
        ensures err { OnErr result ((state self.new).opened ≡ false) }

        ensures map { (state self.new).map ≡ (state self.old).map }
        ensures taken { (state self.new).counts.taken ≡ (state self.old).counts.taken }
        ensures later { AreLater (state self.old).counts (state self.new).counts }

        // With the clauses above and below, a name that isn't in a told map is Missing, unless a
        // fault rose or memory was refused.
        ensures missing { IsErrOf result OpenFault.Missing
            → Rose (state self.old).counts.misses (state self.new).counts.misses }
        ensures absent { IsErrOf result OpenFault.Missing → IsAbsent (state self.old).map name.now }
        ensures no_fault { IsErrOf result OpenFault.Missing
            → (state self.new).counts.faults ≡ (state self.old).counts.faults }
        ensures failed { IsErrOf result OpenFault.Failed
            → Rose (state self.old).counts.faults (state self.new).counts.faults }
        ensures no_miss { IsErrOf result OpenFault.Failed
            → (state self.new).counts.misses ≡ (state self.old).counts.misses };

    /// Reads the open file on, as [`Source::read`] does, and leaves it open.
    ///
    /// # Errors
    ///
    /// [`Failed`] where the outside gave no answer; what is left is then as before.
    fn read(&mut self, buf: &mut [u8]) -> Result<usize, Failed>
        requires { (state self.old).opened ≡ true }
        ensures opened { (state self.new).opened ≡ true }
        ensures bound { ReadsAtMost result buf.new }
        ensures bytes { ReadConsumes (state self.old).left (state self.new).left result buf.new }
        ensures map { (state self.new).map ≡ (state self.old).map }
        ensures misses { (state self.new).counts.misses ≡ (state self.old).counts.misses }
        ensures count { Counts (state self.old).counts.taken (state self.new).counts.taken result }
        ensures cause { HasCause (state self.old).counts.faults (state self.new).counts.faults result };

    /// Closes the open file, if there is one.
    fn close(&mut self)
        ensures closed { (state self.new).opened ≡ false }
        ensures map { (state self.new).map ≡ (state self.old).map }
        ensures counts { (state self.new).counts ≡ (state self.old).counts };
}
