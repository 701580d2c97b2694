//! The pieces of a text: runs of digits, words and blanks.

ghost use Rattle.std.specs.Prelude.{◌≡◌, ◌≤◌, length, MatchOption, IfSome, option_copied};
ghost use Rattle.std.specs.List.{prefix_len};
ghost use Rattle.st_forms.specs.WordMachine as machine;
ghost use Rattle.st_forms.specs.WordMachine.{is_no_blank, run, word, past_word};

use st_text::{has_length, is_blank, read_digits, skip_blanks, split_digits};

/// The number of the digits with which a text begins, from `low` to `high` of them, and the rest.
#[tactic(auto, unfolding(crate::specs::WordMachine::run))]
pub(crate) fn read_run(text: &[u8], low: usize, high: usize) -> Option<(u32, &[u8])>
    requires { high ≤ 4 }
    ensures value { MatchOption result (run low high text.now ≡ None)
        (λ p. run low high text.now ≡ Some (p.0, p.1.now)) }
    ensures few { IfSome result (λ p. p.0 ≤ 9999) }
{
    let (digits, rest) = split_digits(text);
    if !has_length(digits, low, high) {
        return None;
    }
    Some((read_digits(digits) as u32, rest))
}

/// The word with which a text begins, up to its first blank, and the rest.
#[tactic(auto, using(crate::proofs::Cutting::cut))]
pub(crate) fn split_word(text: &[u8]) -> (&[u8], &[u8])
    ensures word { result.0.now ≡ word text.now }
    ensures rest { result.1.now ≡ past_word text.now }
{
    let end = word_length(text);
    (&text[..end], &text[end..])
}

/// How many bytes stand before the first blank, or the text's length where there is none.
fn word_length(text: &[u8]) -> usize
    ensures value { result ≡ prefix_len is_no_blank text.now }
    ensures within { result ≤ length text.now }
{
    text.iter().take_while(|&&byte| !is_blank(byte)).count()
}

/// What stands after the blanks with which a text begins; none where it begins with no blank.
#[tactic(auto, unfolding(crate::specs::WordMachine::past_gap))]
pub(crate) fn past_gap(text: &[u8]) -> Option<&[u8]>
    ensures { option_copied result ≡ machine.past_gap text.now }
{
    match text {
        [first, rest @ ..] if is_blank(*first) => Some(skip_blanks(rest)),
        _ => None,
    }
}
