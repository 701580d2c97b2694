//! Numbers that are written by decimal digits.

ghost use Rattle.std.specs.Prelude.{◌≡◌, ◌<◌, ◌≤◌, ◌^◌, length, IsTrue};
ghost use Rattle.st_text.specs.Bytes as digits;
ghost use Rattle.st_text.specs.Bytes.{number_of};

/// Whether a text has no byte but the digits `0` to `9`. A text of no bytes has none.
pub fn are_digits(text: &[u8]) -> bool
    ensures { result ≡ digits.are_digits text.now }
{
    text.iter().all(|&byte| byte.is_ascii_digit())
}

/// The number that at most 18 digits spell; 0 where there is none.
pub fn read_digits(text: &[u8]) -> u64
    requires digits { IsTrue (digits.are_digits text.now) }
    requires few { length text.now ≤ 18 }
    ensures value { result ≡ number_of text.now }
    ensures below { result < 10 ^ length text.now }
{
    let mut number = 0;
    for byte in text {
        number = 10 * number + u64::from(*byte - b'0');
    }
    number
}

/// The number that at most 38 digits spell; 0 where there is none.
pub fn read_wide_digits(text: &[u8]) -> u128
    requires digits { IsTrue (digits.are_digits text.now) }
    requires few { length text.now ≤ 38 }
    ensures value { result ≡ number_of text.now }
    ensures below { result < 10 ^ length text.now }
{
    let mut number = 0;
    for byte in text {
        number = 10 * number + u128::from(*byte - b'0');
    }
    number
}

#[cfg(test)]
mod tests {
    use super::*;
    use std::test::Fail;

    #[test]
    fn reads_digits(rt: HostRuntime) -> Result<(), Fail> {
        assert!(rt; are_digits(b"007"));
        assert!(rt; are_digits(b""));
        assert!(rt; !are_digits(b"12a"));
        assert!(rt; !are_digits(b"-1"));
        assert_eq!(rt; read_digits(b""), 0);
        assert_eq!(rt; read_digits(b"007"), 7);
        assert_eq!(rt; read_digits(b"999999999999999999"), 999_999_999_999_999_999);
        let most = 99_999_999_999_999_999_999_999_999_999_999_999_999;
        assert_eq!(rt;
            read_wide_digits(b"99999999999999999999999999999999999999"),
            most
        );
        Ok(())
    }
}
