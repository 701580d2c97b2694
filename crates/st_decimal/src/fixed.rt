//! Whole numbers written as decimals with a fixed count of places.

ghost use Rattle.std.specs.Prelude.{◌≡◌, ◌+◌, ◌/◌, ◌%◌, ◌^◌, ◌≤◌, ◌++◌, length, drop, OnOk, OnErr};
ghost use Rattle.st_decimal.specs.Fixed.{fixed, decimals};

use crate::memory::OutOfMemory;
use st_text::write_padded;

/// The most places that a decimal is written with.
const MOST_PLACES: u32 = 18;

/// Room for a sign, the 39 digits of the greatest number, a point and as many decimals.
const ROOM: usize = 80;

/// Appends `n / 10^places` with exactly `places` decimals, and no point for 0 places.
///
/// A negative number has a `-` before it, which zero never has.
///
/// # Errors
///
/// `OutOfMemory`; nothing is appended then.
pub fn put_fixed(out: &mut Vec<u8>, n: i128, places: u32) -> Result<(), OutOfMemory>
    requires { places ≤ MOST_PLACES }
    ensures ok { OnOk result (out.new.items ≡ out.old.items ++ fixed n places) }
    ensures err { OnErr result (out.new.items ≡ out.old.items) }
{
    let mut buffer = [0; ROOM];
    let start = write_fixed(&mut buffer, n, places);
    out.extend_from_slice(&buffer[start..])
}

/// Writes the decimal at the buffer's end, and answers where it begins.
fn write_fixed(buffer: &mut [u8], n: i128, places: u32) -> usize
    requires room { length buffer.old ≡ ROOM }
    requires places { places ≤ MOST_PLACES }
    ensures written { drop result buffer.new ≡ fixed n places }
    ensures within { result ≤ ROOM }
{
    let (whole, decimals) = split_at_point(n.unsigned_abs(), places);
    let point = write_decimals(buffer, decimals, places as usize);
    let start = write_padded(buffer, point, whole, 1);
    if n < 0 {
        buffer[start - 1] = b'-';
        start - 1
    } else {
        start
    }
}

/// What stands before the point and after it. A number of 64 bits, as nearly all are, is divided as one.
fn split_at_point(number: u128, places: u32) -> (u128, u128)
    requires { places ≤ MOST_PLACES }
    ensures whole { result.0 ≡ number / 10 ^ places }
    ensures decimals { result.1 ≡ number % 10 ^ places }
{
    match u64::try_from(number) {
        Ok(short) => {
            let one = 10u64.pow(places);
            (u128::from(short / one), u128::from(short % one))
        }
        Err(_) => {
            let one = 10u128.pow(places);
            (number / one, number % one)
        }
    }
}

/// Writes the point and the decimals at the buffer's end, and answers where they begin.
fn write_decimals(buffer: &mut [u8], number: u128, places: usize) -> usize
    requires room { length buffer.old ≡ ROOM }
    requires places { places ≤ MOST_PLACES }
    ensures written { drop result buffer.new ≡ decimals places number }
    ensures within { result ≤ ROOM }
    ensures few { ROOM ≤ result + 40 }
{
    if places == 0 {
        return buffer.len();
    }
    let start = write_padded(buffer, buffer.len(), number, places) - 1;
    buffer[start] = b'.';
    start
}

#[cfg(test)]
mod tests {
    use super::*;
    use std::test::Fail;

    #[test]
    fn puts_fixed_decimals(rt: HostRuntime) -> Result<(), Fail> {
        let mut out = Vec::new(rt.alloc());
        let rows = [
            (32_000_000, 6),
            (-1, 0),
            (-500, 3),
            (0, 0),
            (0, 2),
            (-5, 1),
            (i128::MIN, 18),
            (i128::MAX, 0),
        ];
        for (n, places) in rows {
            put_fixed(&mut out, n, places)?;
            out.push(b' ')?;
        }
        let wanted =
            b"32.000000 -1 -0.500 0 0.00 -0.5 -170141183460469231731.687303715884105728 170141183460469231731687303715884105727 ";
        assert_eq!(rt; out.as_slice(), wanted.as_slice());
        Ok(())
    }
}
