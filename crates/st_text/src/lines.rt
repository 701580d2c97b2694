//! The lines of a file: a line ends at a line feed or at the end of the file.

ghost use Rattle.std.specs.Prelude.{◌≡◌, ◌<◌, ◌==◌, ◌∷◌, ◌+◌, length, drop, position};
ghost use Rattle.st_text.specs.Lines as lines;
ghost use Rattle.st_text.specs.Lines.{raw_lines};

/// The first line of the bytes, without its line feed, and the bytes after it.
///
/// A carriage return at the end of the line still stands: `without_cr` drops it.
pub fn split_line(bytes: &[u8]) -> (&[u8], &[u8])
    requires { 0 < length bytes.now }
    ensures first { raw_lines bytes.now ≡ result.0.now ∷ raw_lines result.1.now }
    ensures rest { result.1.now ≡ drop (length result.0.now + 1) bytes.now }
    ensures less { length result.1.now < length bytes.now }
{
    match line_end(bytes) {
        Some(end) => (&bytes[..end], &bytes[end + 1..]),
        None => (bytes, &bytes[bytes.len()..]),
    }
}

/// The line without the carriage return at its end, where it has one there. Only one is dropped.
#[tactic(auto, unfolding(crate::specs::Lines::without_cr))]
pub fn without_cr(line: &[u8]) -> &[u8]
    ensures { result.now ≡ lines.without_cr line.now }
{
    match line {
        [front @ .., b'\r'] => front,
        _ => line,
    }
}

/// The place of the first line feed.
pub fn line_end(bytes: &[u8]) -> Option<usize>
    ensures { result ≡ position (λ b. b == 10) bytes.now }
{
    bytes.iter().position(|&byte| byte == b'\n')
}

#[cfg(test)]
mod tests {
    use super::*;
    use std::test::Fail;

    #[test]
    fn splits_lines(rt: HostRuntime) -> Result<(), Fail> {
        let (first, rest) = split_line(b"one\r\ntwo\r");
        assert_eq!(rt; without_cr(first), b"one".as_slice());
        let (second, end) = split_line(rest);
        assert_eq!(rt; without_cr(second), b"two".as_slice());
        assert!(rt; end.is_empty());
        assert_eq!(rt; without_cr(b"x\r\r"), b"x\r".as_slice());
        Ok(())
    }
}
