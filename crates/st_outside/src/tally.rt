//! Counts of what std's files and readers have answered.

ghost use Rattle.std.specs.Prelude.{◌≡◌, if◌then◌else◌, not, Ok, MatchResult, IsErr};
ghost use Rattle.st_outside.specs.Causes.{AreLater, Counts, HasCause, no_counts, raised_if};

use crate::faults::{Failed, OpenFault};
use std::io;
use std::io::ErrorKind;

/// How many names weren't found, how many calls failed, and how many bytes were given.
#[derive(Clone, Copy, Debug)]
pub struct Tally {
    misses: u64,
    faults: u64,
    taken: u64,
}

impl Tally {
    ghost use Rattle.st_outside.specs.Tally.{counts_of, is_missing};

    /// Nothing was counted yet.
    pub fn new() -> Tally
        ensures { counts_of result ≡ no_counts }
    {
        Tally {
            misses: 0,
            faults: 0,
            taken: 0,
        }
    }

    /// Counts an error at opening. What isn't found is missing, and any other error is a fault.
    pub fn refuse(&mut self, kind: ErrorKind) -> OpenFault
        ensures later { AreLater (counts_of self.old) (counts_of self.new) }
        ensures fault { result ≡ (if is_missing kind then OpenFault.Missing else OpenFault.Failed) }
        ensures counts { counts_of self.new ≡ record (counts_of self.old) {
          misses = raised_if (is_missing kind) (counts_of self.old).misses;
          faults = raised_if (not (is_missing kind)) (counts_of self.old).faults;
        } }
    {
        if kind == ErrorKind::NotFound {
            self.misses = self.misses.saturating_add(1);
            return OpenFault::Missing;
        }
        self.faults = self.faults.saturating_add(1);
        OpenFault::Failed
    }

    /// Counts what a read has answered, and hands it on.
    ///
    /// # Errors
    ///
    /// [`Failed`] where the read has failed, for whatever cause.
    pub fn hand_on(&mut self, answer: io::Result<usize>) -> Result<usize, Failed>
        ensures told { MatchResult answer (λ n. result ≡ Ok n) (λ _. IsErr result) }
        ensures misses { (counts_of self.new).misses ≡ (counts_of self.old).misses }
        ensures count { Counts (counts_of self.old).taken (counts_of self.new).taken result }
        ensures cause { HasCause (counts_of self.old).faults (counts_of self.new).faults result }
    {
        match answer {
            Ok(n) => {
                self.taken = self.taken.saturating_add(n as u64);
                Ok(n)
            }
            Err(_) => {
                self.faults = self.faults.saturating_add(1);
                Err(Failed)
            }
        }
    }
}
