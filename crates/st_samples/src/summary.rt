//! The summary of the answers to samples.

ghost use Rattle.std.specs.Prelude.{◌≡◌, ◌+◌, ◌<◌, ◌%◌, ◌^◌, [], ◌++◌, OnOk, OnErr};
ghost use Rattle.std.specs.List.{sum};
ghost use Rattle.st_text.specs.Bytes.{decimal_digits};
ghost use Rattle.st_samples.specs.Summary.{refusal, summary_of, summary_text, text, with_answer};

use st_decimal::OutOfMemory;
use st_text::put_padded;
use std::marker::Model;

/// The most lines that a summary counts.
pub const MOST_LINES: u32 = 1_000_000;

/// How many lines were answered, by texts and by refusals, and the sum of the bytes of their answers modulo 2^32.
#[derive(Debug, Drop)]
pub struct Summary {
    texts: u32,
    refused: u32,
    bytes: u32,
}

impl Model for Summary {
    ghost use Rattle.std.specs.Prelude.{◌+◌, ◌≤◌};
    ghost use Rattle.st_samples.specs.Summary.{Summary as Seen};
    ghost use Rattle.st_samples.specs.declared.summary.TheConstants.{MOST_LINES};

    ghost Value = { Seen };

    ghost view = { λ s. record { lines = s.texts + s.refused; texts = s.texts; refused = s.refused; bytes = s.bytes } };

    ghost invariant = { λ s. s.texts + s.refused ≤ MOST_LINES };
}

impl Summary {
    /// The summary of no answers.
    pub fn new() -> Self
        ensures { result ≡ summary_of [] }
    {
        Summary {
            texts: 0,
            refused: 0,
            bytes: 0,
        }
    }

    /// How many lines were answered.
    pub fn lines(&self) -> u32
        ensures { result ≡ self.now.lines }
    {
        self.texts + self.refused
    }

    /// How many lines were refused.
    pub fn refused(&self) -> u32
        ensures { result ≡ self.now.refused }
    {
        self.refused
    }

    /// Counts a line that was answered by a text, which is given without its line feed.
    pub fn add_text(&mut self, answer: &[u8])
        requires { self.old.lines < MOST_LINES }
        ensures { self.new ≡ with_answer self.old (text answer.now) }
    {
        self.texts += 1;
        self.bytes = plus_bytes(self.bytes, answer);
    }

    /// Counts a line that was refused, by the whole line that says so, without its line feed.
    pub fn add_refusal(&mut self, line: &[u8])
        requires { self.old.lines < MOST_LINES }
        ensures { self.new ≡ with_answer self.old (refusal line.now) }
    {
        self.refused += 1;
        self.bytes = plus_bytes(self.bytes, line);
    }
}

/// Appends a summary as `sample 2 texts 1 refused 1 sum 2605`, without a line feed.
///
/// # Errors
///
/// Want of memory; nothing is appended then.
pub fn put_summary(out: &mut Vec<u8>, summary: &Summary) -> Result<(), OutOfMemory>
    ensures ok { OnOk result (out.new.items ≡ out.old.items ++ summary_text summary.now) }
    ensures err { OnErr result (out.new.items ≡ out.old.items) }
{
    let mut line = Vec::new(*out.allocator());
    put_part(&mut line, b"sample ", summary.lines())?;
    put_part(&mut line, b" texts ", summary.texts)?;
    put_part(&mut line, b" refused ", summary.refused)?;
    put_part(&mut line, b" sum ", summary.bytes)?;
    out.extend_from_slice(line.as_slice())
}

/// Appends a word and a number.
fn put_part(out: &mut Vec<u8>, word: &[u8], number: u32) -> Result<(), OutOfMemory>
    ensures { OnOk result (out.new.items ≡ out.old.items ++ (word.now ++ decimal_digits number)) }
{
    out.extend_from_slice(word)?;
    put_padded(out, u128::from(number), 1)
}

/// A sum and the bytes of an answer, modulo 2^32.
fn plus_bytes(start: u32, answer: &[u8]) -> u32
    ensures { result ≡ (start + sum answer.now) % 2 ^ 32 }
{
    let mut total = start;
    for byte in answer {
        total = total.wrapping_add(u32::from(*byte));
    }
    total
}
