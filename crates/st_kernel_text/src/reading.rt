//! A whole file.

ghost use Rattle.std.specs.Prelude.{List, Result};
ghost use Rattle.st_kernel_text.specs.File.{Reads, Agree};
ghost use Rattle.st_kernel_text.specs.declared.assignment.Assignment.{Assignment as Item};
ghost use Rattle.st_kernel_text.specs.declared.fault.TextFault.{TextFault as Fault};

use crate::assignment::AssignmentList;
use crate::fault::TextFault;
use crate::reader::KernelReader;
use std::alloc::Global;

/// Reads a text kernel: the assignments of its data in order.
///
/// Source: NAIF's Kernel Required Reading.
///
/// # Errors
///
/// The first fault and its line, counted from 1 over the whole file. In each line its length comes
/// first, then, in data, its bytes, then its tokens from left to right. That the data end after a
/// sign or in a list comes last, with the line of the sign or of the `(`. `OutOfMemory` where
/// memory is refused.
pub fn read_kernel(alloc: Global, bytes: &[u8]) -> Result<AssignmentList, TextFault>
    ensures reads { Reads bytes.now result }
    ensures only { (answer : Result (List Item) Fault) → Reads bytes.now answer → Agree result answer }
{
    let mut reader = KernelReader::new(alloc);
    reader.feed(bytes)?;
    reader.finish()
}

#[cfg(test)]
mod tests {
    use super::*;
    use crate::fault::TextCause;
    use crate::value::Value;
    use crate::{Assignment, Mode, ValueList};
    use st_decimal::Dec;
    use std::test::Fail;

    fn is_number(values: &ValueList, digits: i128, tens: i32) -> bool {
        match values.as_slice() {
            [Value::Number(number)] => *number == Dec { digits, tens },
            _ => false,
        }
    }

    fn is_text(values: &ValueList, text: &[u8]) -> bool {
        match values.as_slice() {
            [Value::Text(content)] => content.as_slice() == text,
            _ => false,
        }
    }

    fn is_named(assignment: &Assignment, name: &[u8], mode: Mode) -> bool {
        assignment.name.as_slice() == name && assignment.mode == mode
    }

    #[test]
    fn reads_assignments(rt: HostRuntime) -> Result<(), Fail> {
        let file = b"\\begindata\nX = 'it''s'\nY = -1.5D+2\nZ += @1972-JAN-1\n";
        let list = read_kernel(rt.alloc(), file)?;
        match list.as_slice() {
            [x, y, z] => {
                assert!(rt; is_named(x, b"X", Mode::Set) && is_text(&x.values, b"it's"));
                assert!(rt; is_named(y, b"Y", Mode::Set) && is_number(&y.values, -15, 1));
                assert!(rt; is_named(z, b"Z", Mode::Add) && is_number(&z.values, -883_656, 3));
            }
            _ => assert!(rt; false),
        }
        let added = read_kernel(rt.alloc(), b"\\begindata\nX+=1")?;
        match added.as_slice() {
            [x] => assert!(rt; is_named(x, b"X", Mode::Add) && is_number(&x.values, 1, 0)),
            _ => assert!(rt; false),
        }
        let file =
            b"KPL\r\n\\begindata\r\nA_NAME_OF_MORE_THAN_16_BYTES_YET= ( 'a string of more than ten bytes', 'b' )\r\n\r\n\\begintext\r\nX = 1\r";
        let windows = read_kernel(rt.alloc(), file)?;
        match windows.as_slice() {
            [x] => {
                assert!(rt; is_named(x, b"A_NAME_OF_MORE_THAN_16_BYTES_YET", Mode::Set));
                match x.values.as_slice() {
                    [Value::Text(a), Value::Text(b)] => {
                        assert_eq!(rt; a.as_slice(), b"a string of more than ten bytes".as_slice());
                        assert_eq!(rt; b.as_slice(), b"b".as_slice());
                    }
                    _ => assert!(rt; false),
                }
            }
            _ => assert!(rt; false),
        }
        assert!(rt; read_kernel(rt.alloc(), b"")?.is_empty());
        assert!(rt; read_kernel(rt.alloc(), b"KPL/LSK\nX = (\n")?.is_empty());
        Ok(())
    }

    #[test]
    fn reports_faults(rt: HostRuntime) -> Result<(), Fail> {
        let table: [(&[u8], u64, TextCause); 16] = [
            (b"\\begindata\nX = 1E2, 'a'", 2, TextCause::TrailingText),
            (b"\\begindata\nX = ( )", 2, TextCause::NoValue),
            (b"\\begindata\nX = ((1)", 2, TextCause::BadNumber),
            (b"\\begindata\nX", 2, TextCause::NoSign),
            (b"\\begindata\nX = 'a", 2, TextCause::BadString),
            (b"\\begindata\nX = @2000-13-01", 2, TextCause::BadDate),
            (b"\\begindata\nX = 1E401", 2, TextCause::BadNumber),
            (b"\\begindata\nX = ( 1, 'a' )\n", 2, TextCause::MixedKinds),
            (b"\\begindata\nX = ( 1 'a'b )\n", 2, TextCause::BadString),
            (
                b"\\begindata\nX = ( 1 'a' 1E999 )\n",
                2,
                TextCause::MixedKinds,
            ),
            (b"\\begindata\nX = ( 1,\n", 2, TextCause::Unclosed),
            (b"\\begindata\nX = \n( 1,\n\n", 3, TextCause::Unclosed),
            (b"\\begindata\nX++=1\n", 2, TextCause::NoName),
            (b"\\begindata\nX = 1\x7f\n", 2, TextCause::BadByte),
            (b"\\begindata\n\nX =\n\\begintext\n", 3, TextCause::NoValue),
            (b"\\begindata\nX = 1)\n", 2, TextCause::TrailingText),
        ];
        for (file, line, cause) in table {
            match read_kernel(rt.alloc(), file) {
                Err(fault) => assert_eq!(rt; fault, TextFault::At { line, cause }),
                Ok(_) => assert!(rt; false),
            }
        }
        let long = [b'x'; 1001];
        match read_kernel(rt.alloc(), &long) {
            Err(fault) => assert_eq!(rt;
                fault,
                TextFault::At {
                    line: 1,
                    cause: TextCause::LineTooLong
                }
            ),
            Ok(_) => assert!(rt; false),
        }
        Ok(())
    }
}
