//! Decimal digits that are written for a number.

ghost use Rattle.std.specs.Prelude.{◌≡◌, ◌+◌, ◌≤◌, ◌++◌, length, take, drop, OnOk, OnErr};
ghost use Rattle.st_text.specs.Bytes.{padded};

use std::alloc::AllocError;

/// The most digits that a number of 128 bits has.
const MOST_DIGITS: usize = 39;

/// Writes the digits of a number into a buffer so that they end before `end`, with zeros before
/// them where they are fewer than `width`, and answers the place at which they begin.
///
/// Zero has as many digits as `width` says. Numbers of 64 bits are divided as such, which costs a third.
pub fn write_padded(buffer: &mut [u8], end: usize, number: u128, width: usize) -> usize
    requires inside { end ≤ length buffer.old }
    requires room { MOST_DIGITS ≤ end }
    requires width { width ≤ MOST_DIGITS }
    ensures written { drop result buffer.new ≡ padded width number ++ drop end buffer.old }
    ensures kept { take result buffer.new ≡ take result buffer.old }
    ensures before { result ≤ end }
    ensures few { end ≤ result + MOST_DIGITS }
{
    let mut at = end;
    let mut rest = number;
    while rest > u64::MAX as u128 {
        at -= 1;
        buffer[at] = b'0' + (rest % 10) as u8;
        rest /= 10;
    }
    let mut short = rest as u64;
    while short > 0 || end - at < width {
        at -= 1;
        buffer[at] = b'0' + (short % 10) as u8;
        short /= 10;
    }
    at
}

/// Appends the digits of a number, with zeros before them where they are fewer than `width`.
///
/// Zero has as many digits as `width` says.
///
/// # Errors
///
/// `AllocError` where memory is refused; nothing is appended then.
pub fn put_padded(out: &mut Vec<u8>, number: u128, width: usize) -> Result<(), AllocError>
    requires { width ≤ MOST_DIGITS }
    ensures ok { OnOk result (out.new.items ≡ out.old.items ++ padded width number) }
    ensures err { OnErr result (out.new.items ≡ out.old.items) }
{
    let mut buffer = [0; MOST_DIGITS];
    let start = write_padded(&mut buffer, MOST_DIGITS, number, width);
    out.extend_from_slice(&buffer[start..])
}

#[cfg(test)]
mod tests {
    use super::*;
    use std::test::Fail;

    #[test]
    fn puts_padded_digits(rt: HostRuntime) -> Result<(), Fail> {
        let mut out = Vec::new(rt.alloc());
        put_padded(&mut out, 7, 3)?;
        put_padded(&mut out, 1996, 2)?;
        put_padded(&mut out, 0, 1)?;
        put_padded(&mut out, u128::MAX, 0)?;
        let wanted = b"00719960340282366920938463463374607431768211455";
        assert_eq!(rt; out.as_slice(), wanted.as_slice());
        Ok(())
    }
}
