//! Blanks, which are the space and the tab.

ghost use Rattle.std.specs.Prelude.{◌≡◌};
ghost use Rattle.st_text.specs.Bytes as bytes;
ghost use Rattle.st_text.specs.Lines as lines;

/// Whether a byte is a blank.
pub fn is_blank(byte: u8) -> bool
    ensures { result ≡ bytes.is_blank byte }
{
    byte == b' ' || byte == b'\t'
}

/// Whether a text has no byte but blanks. A text of no bytes has none.
pub fn are_blanks(text: &[u8]) -> bool
    ensures { result ≡ bytes.are_blanks text.now }
{
    text.iter().all(|&byte| is_blank(byte))
}

/// The text from its first byte on that is no blank.
pub fn skip_blanks(text: &[u8]) -> &[u8]
    ensures { result.now ≡ lines.skip_blanks text.now }
{
    let mut rest = text;
    while let [first, after @ ..] = rest {
        if !is_blank(*first) {
            break;
        }
        rest = after;
    }
    rest
}

/// The text without the blanks at its two ends.
pub fn trim(text: &[u8]) -> &[u8]
    ensures { result.now ≡ lines.trimmed text.now }
{
    trim_end(skip_blanks(text))
}

/// The text up to its last byte that is no blank.
fn trim_end(text: &[u8]) -> &[u8]
    ensures { result.now ≡ lines.without_end_blanks text.now }
{
    let mut rest = text;
    while let [before @ .., last] = rest {
        if !is_blank(*last) {
            break;
        }
        rest = before;
    }
    rest
}

#[cfg(test)]
mod tests {
    use super::*;
    use std::test::Fail;

    #[test]
    fn trims_blanks(rt: HostRuntime) -> Result<(), Fail> {
        assert!(rt; are_blanks(b" \t"));
        assert!(rt; !are_blanks(b" \r"));
        assert_eq!(rt; trim(b"\t one two \t"), b"one two".as_slice());
        assert_eq!(rt; trim(b" \t "), b"".as_slice());
        assert_eq!(rt; skip_blanks(b"  a "), b"a ".as_slice());
        Ok(())
    }
}
