//! Cutting a clock string from the left.

ghost use Rattle.std.specs.Prelude.{◌≡◌, IsTrue, IfSome, MatchOption, option_copied};
ghost use Rattle.st_text.specs.Bytes as bytes;
ghost use Rattle.st_ticks.specs.ClockText as text;
ghost use Rattle.st_ticks.specs.TextMachine as machine;

use st_text::{is_blank, skip_blanks, split_digits};

/// Whether a byte may stand alone between two fields.
fn is_mark(byte: u8) -> bool
    ensures { result ≡ text.is_mark byte }
{
    byte == b'.' || byte == b':' || byte == b'-' || byte == b','
}

/// What is after the separator with which a text begins: a run of blanks, or a mark with or without
/// blanks around it.
#[tactic(auto, unfolding(crate::specs::TextMachine::past_separator))]
pub fn past_separator(text: &[u8]) -> Option<&[u8]>
    ensures { option_copied result ≡ machine.past_separator text.now }
{
    match past_mark(skip_blanks(text)) {
        Some(rest) => Some(rest),
        None => past_gap(text),
    }
}

#[tactic(auto, unfolding(crate::specs::TextMachine::past_mark))]
fn past_mark(text: &[u8]) -> Option<&[u8]>
    ensures { option_copied result ≡ machine.past_mark text.now }
{
    match text {
        [first, rest @ ..] if is_mark(*first) => Some(skip_blanks(rest)),
        _ => None,
    }
}

#[tactic(auto, unfolding(crate::specs::TextMachine::past_gap))]
fn past_gap(text: &[u8]) -> Option<&[u8]>
    ensures { option_copied result ≡ machine.past_gap text.now }
{
    match text {
        [first, rest @ ..] if is_blank(*first) => Some(skip_blanks(rest)),
        _ => None,
    }
}

/// What is after the `/`, and the blanks after it, with which a text begins.
#[tactic(auto, unfolding(crate::specs::TextMachine::past_slash))]
fn past_slash(text: &[u8]) -> Option<&[u8]>
    ensures { option_copied result ≡ machine.past_slash text.now }
{
    match text {
        [first, rest @ ..] if *first == b'/' => Some(skip_blanks(rest)),
        _ => None,
    }
}

/// The digits of the partition with which a text begins, and what is after its `/`.
#[tactic(auto, unfolding(crate::specs::TextMachine::partition_in))]
pub fn split_partition(text: &[u8]) -> Option<(&[u8], &[u8])>
    ensures value { MatchOption result (machine.partition_in text.now ≡ None)
        (λ p. machine.partition_in text.now ≡ Some (p.0.now, p.1.now)) }
    ensures digits { IfSome result (λ p. IsTrue (bytes.are_digits p.0.now)) }
{
    let (digits, behind) = split_digits(text);
    if digits.is_empty() {
        return None;
    }
    let rest = past_slash(skip_blanks(behind))?;
    Some((digits, rest))
}
