//! What a line is answered.

ghost use Rattle.std.specs.Prelude.{◌≡◌, ◌≢◌, [], ◌∷◌, ◌++◌, IfOk, OnOk, OnErr};
ghost use Rattle.st_batch.specs.declared.answer.Answer.TheVariants.{Text, Refused};
ghost use Rattle.st_batch.specs.Texts as texts;
ghost use Rattle.st_refusals.specs.Texts.{refusal_text};

use st_decimal::{Line, OutOfMemory};
use st_refusals::{LineFault, put_refusal};
use st_words::{WordFault, put_word_fault};
use std::alloc::Global;

/// The answer of a line: a text, or why the line is refused.
#[derive(Debug, Drop)]
pub enum Answer {
    /// What a command did, or what a time is printed as; without the end of the line.
    Text(Line),
    /// Why the line is refused, which is never want of memory.
    Refused(LineFault),
}

/// The answer of a command that was carried out.
pub fn said(alloc: Global, text: &[u8]) -> Result<Answer, OutOfMemory>
    ensures { IfOk result (λ answer. answer ≡ Text text.now) }
{
    Ok(Answer::Text(Line::from_slice(alloc, text)?))
}

/// Appends an answer as a line of the output.
pub fn put_answer(out: &mut Vec<u8>, answer: &Answer) -> Result<(), OutOfMemory>
    requires { answer.now ≢ Refused LineFault.OutOfMemory }
    ensures { OnOk result (out.new.items ≡ out.old.items ++ texts.line_of answer.now) }
{
    match answer {
        Answer::Text(text) => {
            out.extend_from_slice(text.as_slice())?;
            out.push(b'\n')?;
        }
        Answer::Refused(fault) => put_refused(out, b"refused ", fault)?,
    }
    Ok(())
}

/// Appends a line that names a refusal after some words.
pub fn put_refused(out: &mut Vec<u8>, words: &[u8], fault: &LineFault) -> Result<(), OutOfMemory>
    requires { fault.now ≢ LineFault.OutOfMemory }
    ensures { OnOk result (out.new.items ≡ out.old.items ++ (words.now ++ (refusal_text fault.now ++ (10 ∷ [])))) }
{
    out.extend_from_slice(words)?;
    put_refusal(out, fault)?;
    out.push(b'\n')?;
    Ok(())
}

/// Appends the line that says why the words are refused.
pub fn put_words_refused(out: &mut Vec<u8>, fault: &WordFault) -> Result<(), OutOfMemory>
    requires { fault.now ≢ WordFault.OutOfMemory }
    ensures { OnOk result (out.new.items ≡ out.old.items ++ texts.words_line fault.now) }
{
    out.extend_from_slice(b"bad words ")?;
    put_word_fault(out, fault)?;
    out.push(b'\n')?;
    Ok(())
}
