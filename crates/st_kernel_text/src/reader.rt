//! A kernel that is read in pieces.

ghost use Rattle.std.specs.Prelude.{◌≡◌, ◌+◌, ◌<◌, ◌≤◌, ◌^◌, List, [], ◌++◌, ℕ, length, Result, Err, Some, None, IfErr};
ghost use Rattle.st_kernel_text.specs.File.{Reads, Agree};
ghost use Rattle.st_kernel_text.specs.Pieces.{ReadsSoFar, fault_of};
ghost use Rattle.st_kernel_text.specs.ParserMachine.{Gives, Answers};
ghost use Rattle.st_kernel_text.specs.PiecesMachine as machine;
ghost use Rattle.st_kernel_text.specs.Reader.{Fed};
ghost use Rattle.st_kernel_text.specs.declared.assignment.Assignment.{Assignment as Item};
ghost use Rattle.st_kernel_text.specs.declared.fault.TextFault.{TextFault as Fault};

use crate::assignment::AssignmentList;
use crate::fault::TextFault;
use crate::lines::Reading;
use std::alloc::Global;
use std::marker::Model;

/// Reads a text kernel that comes in pieces, of which it keeps the line that is begun and the
/// assignments alone. Any pieces give what [`read_kernel`](crate::read_kernel) gives for all their
/// bytes in a row.
///
/// Source: NAIF's Kernel Required Reading.
#[derive(Debug, Drop)]
pub struct KernelReader {
    reading: Reading,
    /// How many bytes the reader was fed.
    count: usize,
    /// What it answers from now on.
    failed: Option<TextFault>,
}

impl Model for KernelReader {
    ghost use Rattle.std.specs.Prelude.{◌+◌, ◌≤◌};
    ghost use Rattle.st_kernel_text.specs.Reader.{Reader};

    ghost Value = { Reader };

    ghost view = { λ r. record { count = r.count; failed = r.failed; reading = r.reading } };

    ghost invariant = { λ r. r.reading.number ≤ r.count + 1 };
}

impl KernelReader {
    /// A reader that was fed no bytes. It keeps the allocator.
    pub fn new(alloc: Global) -> Self
        ensures fed { Fed [] result }
        ensures count { result.count ≡ 0 }
        ensures failed { result.failed ≡ None }
    {
        KernelReader {
            reading: Reading::new(alloc),
            count: 0,
            failed: None,
        }
    }

    /// Takes the next bytes of the kernel. All bytes together are fewer than 2^63.
    ///
    /// # Errors
    ///
    /// The first fault that the file has however it goes on, and its line: one in a line that a line
    /// feed has ended, or that the line which is begun has more than 1,000 bytes, where a carriage
    /// return as its last byte isn't counted. `OutOfMemory` where memory is refused. From then on
    /// the reader answers the same, here and in `finish`.
    pub fn feed(&mut self, piece: &[u8]) -> Result<(), TextFault>
        requires few { self.old.count + length piece.now < 2 ^ 63 }
        ensures count { self.new.count ≡ self.old.count + length piece.now }
        ensures fed { (bytes : List ℕ) → Fed bytes self.old → Fed (bytes ++ piece.now) self.new }
        ensures reads { (bytes : List ℕ) → Fed bytes self.old → ReadsSoFar (bytes ++ piece.now) result }
        ensures only { (bytes : List ℕ) → Fed bytes self.old
            → (answer : Result (Unit {0}) Fault) → ReadsSoFar (bytes ++ piece.now) answer → Agree result answer }
        ensures every { (bytes more : List ℕ) → Fed bytes self.old
            → IfErr result (λ fault. Reads ((bytes ++ piece.now) ++ more) (Err fault)) }
        ensures failed { self.new.failed ≡ fault_of result }
        ensures again { (fault : Fault) → self.old.failed ≡ Some fault → result ≡ Err fault }
    {
        self.take(piece)
    }

    fn take(&mut self, piece: &[u8]) -> Result<(), TextFault>
        requires few { self.old.count + length piece.now < 2 ^ 63 }
        ensures count { self.new.count ≡ self.old.count + length piece.now }
        ensures failed { self.new.failed ≡ fault_of result }
        ensures again { (fault : Fault) → self.old.failed ≡ Some fault → result ≡ Err fault }
        ensures gives { self.old.failed ≡ None → Gives self.new.reading result (machine.bytes_of self.old.reading piece.now) }
    {
        self.count += piece.len();
        if let Some(fault) = self.failed {
            return Err(fault);
        }
        let result = self.reading.read(piece);
        if let Err(fault) = result {
            self.failed = Some(fault);
        }
        result
    }

    /// The assignments of the kernel, whose bytes are all fed.
    ///
    /// # Errors
    ///
    /// As for [`read_kernel`](crate::read_kernel), or what `feed` has answered.
    pub fn finish(self) -> Result<AssignmentList, TextFault>
        ensures reads { (bytes : List ℕ) → Fed bytes self → Reads bytes result }
        ensures only { (bytes : List ℕ) → Fed bytes self
            → (answer : Result (List Item) Fault) → Reads bytes answer → Agree result answer }
        ensures again { (fault : Fault) → self.failed ≡ Some fault → result ≡ Err fault }
    {
        self.end()
    }

    fn end(self) -> Result<AssignmentList, TextFault>
        ensures again { (fault : Fault) → self.failed ≡ Some fault → result ≡ Err fault }
        ensures gives { self.failed ≡ None → Answers result (machine.end_of self.reading) }
    {
        match self.failed {
            Some(fault) => Err(fault),
            None => self.reading.finish(),
        }
    }
}

#[cfg(test)]
mod tests {
    use super::*;
    use crate::assignment::Mode;
    use crate::fault::TextCause;
    use crate::value::Value;
    use st_decimal::Dec;
    use std::test::Fail;

    fn feed_pieces(reader: &mut KernelReader, bytes: &[u8], most: usize) -> Result<(), TextFault>
        requires some { 0 < most }
        requires few { reader.old.count + length bytes.now < 2 ^ 63 }
        ensures count { reader.new.count ≤ reader.old.count + length bytes.now }
    {
        let mut rest = bytes;
        while !rest.is_empty() {
            let end = rest.len().min(most);
            reader.feed(&rest[..end])?;
            rest = &rest[end..];
        }
        Ok(())
    }

    fn too_long(line: u64) -> TextFault {
        TextFault::At {
            line,
            cause: TextCause::LineTooLong,
        }
    }

    #[test]
    fn reads_pieces(rt: HostRuntime) -> Result<(), Fail> {
        let file = b"\\begindata\nX = 'it''s'\nY = -1.5D+2\nZ += @1972-JAN-1\n";
        let mut reader = KernelReader::new(rt.alloc());
        feed_pieces(&mut reader, file, 1)?;
        let list = reader.finish()?;
        match list.as_slice() {
            [x, y, z] => {
                assert_eq!(rt; x.name.as_slice(), b"X".as_slice());
                assert_eq!(rt; x.mode, Mode::Set);
                match (
                    x.values.as_slice(),
                    y.values.as_slice(),
                    z.values.as_slice(),
                ) {
                    ([Value::Text(text)], [Value::Number(number)], [Value::Number(date)]) => {
                        assert_eq!(rt; text.as_slice(), b"it's".as_slice());
                        assert_eq!(rt;
                            *number,
                            Dec {
                                digits: -15,
                                tens: 1
                            }
                        );
                        assert_eq!(rt;
                            *date,
                            Dec {
                                digits: -883_656,
                                tens: 3
                            }
                        );
                    }
                    _ => assert!(rt; false),
                }
                assert_eq!(rt; z.name.as_slice(), b"Z".as_slice());
                assert_eq!(rt; z.mode, Mode::Add);
            }
            _ => assert!(rt; false),
        }
        Ok(())
    }

    #[test]
    fn cuts_long_lines(rt: HostRuntime) -> Result<(), Fail> {
        let mut file = [b'x'; 1002];
        file[1000] = b'\r';
        file[1001] = b'\n';
        for cut in 0..file.len() {
            let mut reader = KernelReader::new(rt.alloc());
            reader.feed(&file[..cut])?;
            reader.feed(&file[cut..])?;
            assert!(rt; reader.finish()?.is_empty());
        }
        let mut reader = KernelReader::new(rt.alloc());
        reader.feed(&[b'x'; 1000])?;
        assert_eq!(rt; reader.feed(b"x"), Err(too_long(1)));
        let mut reader = KernelReader::new(rt.alloc());
        reader.feed(b"\\begindata\n")?;
        assert_eq!(rt; feed_pieces(&mut reader, &[200; 1001], 7), Err(too_long(2)));
        Ok(())
    }

    #[test]
    fn keeps_faults(rt: HostRuntime) -> Result<(), Fail> {
        let mixed = TextFault::At {
            line: 2,
            cause: TextCause::MixedKinds,
        };
        let mut reader = KernelReader::new(rt.alloc());
        assert_eq!(rt; reader.feed(b"\\begindata\nX = ( 1, 'a' )\n"), Err(mixed));
        assert_eq!(rt; reader.feed(b"Y = 1\n\x07"), Err(mixed));
        match reader.finish() {
            Err(fault) => assert_eq!(rt; fault, mixed),
            Ok(_) => assert!(rt; false),
        }
        Ok(())
    }
}
