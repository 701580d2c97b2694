//! The bytes of a file one by one, up to a place in it.

ghost use Rattle.std.specs.Prelude.{◌≡◌, ◌+◌, ◌<◌, ◌≤◌, ◌^◌, length};
ghost use Rattle.st_kernel_text.specs.ParserMachine.{Gives, Answers};
ghost use Rattle.st_kernel_text.specs.PiecesMachine as machine;
ghost use Rattle.st_kernel_text.specs.PiecesMachine.{beginning};

use crate::assignment::AssignmentList;
use crate::fault::{TextCause, TextFault};
use crate::kernel::{Kernel, MOST_BYTES, read_line};
use crate::parser::fault;
use st_decimal::KText;
use st_text::without_cr;
use std::alloc::Global;

/// How far a file is read: the lines that have ended, and the bytes of the line that is begun.
#[derive(Debug, Drop)]
pub struct Reading {
    pub kernel: Kernel,
    /// The bytes after the last line feed.
    pub begun: KText,
    /// The number of the line that is begun.
    pub number: u64,
}

impl Reading {
    /// The reading before the first byte.
    pub fn new(alloc: Global) -> Self
        ensures { result ≡ beginning }
    {
        Reading {
            kernel: Kernel::new(alloc),
            begun: KText::new(alloc),
            number: 1,
        }
    }

    /// Reads the next bytes.
    pub fn read(&mut self, bytes: &[u8]) -> Result<(), TextFault>
        requires few { self.old.number + length bytes.now < 2 ^ 64 }
        ensures gives { Gives self.new result (machine.bytes_of self.old bytes.now) }
        ensures number { self.new.number ≤ self.old.number + length bytes.now }
    {
        for byte in bytes {
            self.read_byte(*byte)?;
        }
        Ok(())
    }

    fn read_byte(&mut self, byte: u8) -> Result<(), TextFault>
        requires few { self.old.number + 1 < 2 ^ 64 }
        ensures gives { Gives self.new result (machine.byte_of self.old byte) }
        ensures number { self.new.number ≤ self.old.number + 1 }
    {
        if byte == b'\n' {
            self.end_line()
        } else {
            self.begin_line(byte)
        }
    }

    /// Reads the line that is begun, whose end has come.
    fn end_line(&mut self) -> Result<(), TextFault>
        requires few { self.old.number + 1 < 2 ^ 64 }
        ensures gives { Gives self.new result (machine.ended_of self.old) }
        ensures number { self.new.number ≤ self.old.number + 1 }
    {
        read_line(
            &mut self.kernel,
            self.number,
            without_cr(self.begun.as_slice()),
        )?;
        self.begun.clear();
        self.number += 1;
        Ok(())
    }

    /// Takes one more byte of the line that is begun. A carriage return could be that of the line's
    /// end, so it isn't counted until another byte follows it.
    fn begin_line(&mut self, byte: u8) -> Result<(), TextFault>
        ensures gives { Gives self.new result (machine.begun_of self.old byte) }
        ensures number { self.new.number ≡ self.old.number }
    {
        if self.begun.len() > most_before(byte) {
            return Err(fault(self.number, TextCause::LineTooLong));
        }
        self.begun.push(byte)?;
        Ok(())
    }

    /// Reads the line that is begun, if one is, as the last of the file.
    pub fn finish(mut self) -> Result<AssignmentList, TextFault>
        ensures { Answers result (machine.end_of self) }
    {
        if !self.begun.is_empty() {
            read_line(
                &mut self.kernel,
                self.number,
                without_cr(self.begun.as_slice()),
            )?;
        }
        self.kernel.parser.finish()
    }
}

/// The most bytes that a line may have before a byte of it.
fn most_before(byte: u8) -> usize
    ensures { result ≡ machine.most_before byte }
{
    if byte == b'\r' {
        MOST_BYTES
    } else {
        MOST_BYTES - 1
    }
}
