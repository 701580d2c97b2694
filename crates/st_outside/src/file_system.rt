//! Real files.

ghost use Rattle.std.specs.Prelude.{◌≡◌, false, None, is_some, option_and_then};
ghost use Rattle.st_outside.specs.Causes.{no_counts};

use crate::faults::{Failed, OpenFault};
use crate::tally::Tally;
use crate::traits::Files;
use std::io::{ErrorKind, Read};
use std::{fs, rt, str};

/// The files of the machine, by their paths. What is left of the open file is told where its reader
/// tells it, and no more.
///
/// A path that isn't found and a name that isn't UTF-8 are missing; any other error is a fault.
#[derive(Drop)]
pub struct FileSystem<'a, R: rt::Files> {
    rt: &'a R,
    file: Option<R::File>,
    tally: Tally,
}

impl<'a, R: rt::Files> FileSystem<'a, R> {
    /// The files that this runtime reaches, of which none is open.
    pub fn new(rt: &'a R) -> FileSystem<'a, R>
        ensures { ⟦<FileSystem<'a, R> as Files>⟧.state result
            ≡ record { map = None; opened = false; left = None; counts = no_counts } }
    {
        FileSystem {
            rt,
            file: None,
            tally: Tally::new(),
        }
    }
}

impl<'a, R: rt::Files> Files for FileSystem<'a, R> {
    ghost use Rattle.st_outside.specs.Tally.{counts_of};

    ghost state = { λ f. record {
      map = None;
      opened = is_some f.file;
      left = option_and_then (λ file. ⟦<R::File as Read>⟧.remaining file) f.file;
      counts = counts_of f.tally;
    } };

    fn open(&mut self, name: &[u8]) -> Result<(), OpenFault> {
        self.file = None;
        let Ok(path) = str::from_utf8(name) else {
            return Err(self.tally.refuse(ErrorKind::NotFound));
        };
        match fs::open(self.rt, path) {
            Ok(file) => {
                self.file = Some(file);
                Ok(())
            }
            Err(error) => Err(self.tally.refuse(error.kind())),
        }
    }

    fn read(&mut self, buf: &mut [u8]) -> Result<usize, Failed> {
        let Some(file) = &mut self.file else {
            unreachable!()
        };
        self.tally.hand_on(file.read(buf))
    }

    fn close(&mut self) {
        self.file = None;
    }
}
