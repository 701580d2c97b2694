//! Parts with which a text begins, and what stands after them.

ghost use Rattle.std.specs.Prelude.{◌≡◌, ◌≤◌, ◌↔◌, length, IsTrue, option_copied};
ghost use Rattle.std.specs.Char.{is_ascii_digit};
ghost use Rattle.std.specs.List.{prefix_len};
ghost use Rattle.st_text.specs.Bytes as bytes;
ghost use Rattle.st_text.specs.Scan as scan;
ghost use Rattle.st_text.specs.Scan.{leading_digits, past_digits, IsDigitRun};

use crate::digits::are_digits;

/// The digits with which a text begins, and the rest of it.
#[tactic(auto, using(crate::proofs::Runs::cut))]
pub fn split_digits(text: &[u8]) -> (&[u8], &[u8])
    ensures digits { result.0.now ≡ leading_digits text.now }
    ensures all { IsTrue (bytes.are_digits result.0.now) }
    ensures rest { result.1.now ≡ past_digits text.now }
{
    let end = count_digits(text);
    (&text[..end], &text[end..])
}

/// What stands after a byte with which a text begins; none where it begins with another byte.
#[tactic(auto, unfolding(crate::specs::Scan::after))]
pub fn after(text: &[u8], byte: u8) -> Option<&[u8]>
    ensures { option_copied result ≡ scan.after byte text.now }
{
    match text {
        [first, rest @ ..] if *first == byte => Some(rest),
        _ => None,
    }
}

/// Whether a text is digits alone, from `low` to `high` of them.
#[tactic(auto, unfolding(crate::specs::Scan::is_digit_run))]
pub fn is_digit_run(text: &[u8], low: usize, high: usize) -> bool
    ensures run { IsTrue result ↔ IsDigitRun low high text.now }
    ensures exact { result ≡ scan.is_digit_run low high text.now }
{
    are_digits(text) && low <= text.len() && text.len() <= high
}

/// Whether there are from `low` to `high` digits: the same test of a text that is known to be digits alone.
#[tactic(auto, unfolding(crate::specs::Scan::is_digit_run))]
pub fn has_length(digits: &[u8], low: usize, high: usize) -> bool
    requires { IsTrue (bytes.are_digits digits.now) }
    ensures run { IsTrue result ↔ IsDigitRun low high digits.now }
    ensures exact { result ≡ scan.is_digit_run low high digits.now }
{
    low <= digits.len() && digits.len() <= high
}

/// How many digits a text begins with.
fn count_digits(text: &[u8]) -> usize
    ensures value { result ≡ prefix_len is_ascii_digit text.now }
    ensures within { result ≤ length text.now }
{
    text.iter().take_while(|byte| byte.is_ascii_digit()).count()
}

#[cfg(test)]
mod tests {
    use super::*;
    use std::test::Fail;

    #[test]
    fn scans_texts(rt: HostRuntime) -> Result<(), Fail> {
        let (digits, rest) = split_digits(b"007-1");
        assert_eq!(rt; digits, b"007".as_slice());
        assert_eq!(rt; rest, b"-1".as_slice());
        assert_eq!(rt; after(rest, b'-'), Some(b"1".as_slice()));
        assert_eq!(rt; after(rest, b':'), None);
        assert_eq!(rt; after(b"", b'-'), None);
        assert!(rt; is_digit_run(b"12", 1, 2));
        assert!(rt; !is_digit_run(b"", 1, 2));
        assert!(rt; !is_digit_run(b"123", 1, 2));
        assert!(rt; !is_digit_run(b"1a", 1, 2));
        assert!(rt; has_length(b"12", 1, 2));
        assert!(rt; !has_length(b"123", 1, 2));
        Ok(())
    }
}
