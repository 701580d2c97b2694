//! The commands of a session.

ghost use Rattle.std.specs.Prelude.{◌≡◌, ◌≢◌, ◌≤◌, [], true, false, codes, IfOk, IfSome, IsNone, OnErr, ℕ, List};
ghost use Rattle.st_outside.specs.States.{KeepsFiles};
ghost use Rattle.st_batch.specs.Causes.{IsAnswerCaused};
ghost use Rattle.st_batch.specs.Commands.{CommandGives, IsFileName, IsNoLoad, LoadAnswers, NamesFile, UnloadAnswers, begins_command};
ghost use Rattle.st_refusals.specs.Faults.{line_fault};
ghost use Rattle.st_batch.specs.declared.answer.Answer.TheVariants.{Refused, Text};

use crate::answer::{Answer, said};
use crate::load::load_file;
use st_decimal::OutOfMemory;
use st_outside::Files;
use st_pool::NotLoaded;
use st_refusals::{KernelFault, LineFault};
use st_tables::Kernels;
use st_text::skip_blanks;
use std::alloc::{AllocError, Global};
use std::str;

/// The most bytes that a file's name may have.
pub const MAX_NAME: usize = 255;

/// Whether a text begins with `$`, as commands do.
pub fn is_command(text: &[u8]) -> bool
    ensures { result ≡ begins_command text.now }
{
    matches!(text, [b'$', ..])
}

/// The answer of a text that begins with `$`, and what it does to the loaded kernels.
pub fn answer_command<F: Files>(
    alloc: Global,
    kernels: &mut Kernels,
    text: &[u8],
    files: &mut F,
) -> Result<Answer, OutOfMemory>
    ensures answered { IfOk result (λ answer. CommandGives (F.state files.old).map kernels.old.loaded text.now answer kernels.new.loaded) }
    ensures err { OnErr result (kernels.new.loaded ≡ kernels.old.loaded) }
    ensures cause { IfOk result (λ answer. IsAnswerCaused answer (F.state files.old).counts (F.state files.new).counts) }
    ensures files { KeepsFiles (F.state files.old) (F.state files.new) }
    ensures unread { IsNoLoad text.now → F.state files.new ≡ F.state files.old }
{
    if let Some(name) = name_behind(b"$load", text) {
        return load_named(alloc, kernels, name, files);
    }
    if let Some(name) = name_behind(b"$unload", text) {
        return unload_named(alloc, kernels, name);
    }
    if text == b"$clear".as_slice() {
        return clear_all(alloc, kernels);
    }
    Ok(Answer::Refused(LineFault::BadCommand))
}

/// Loads the file of this name.
fn load_named<F: Files>(
    alloc: Global,
    kernels: &mut Kernels,
    name: &[u8],
    files: &mut F,
) -> Result<Answer, OutOfMemory>
    ensures answered { IfOk result (λ answer. LoadAnswers (F.state files.old).map kernels.old.loaded name.now answer kernels.new.loaded) }
    ensures err { OnErr result (kernels.new.loaded ≡ kernels.old.loaded) }
    ensures cause { IfOk result (λ answer. IsAnswerCaused answer (F.state files.old).counts (F.state files.new).counts) }
    ensures files { KeepsFiles (F.state files.old) (F.state files.new) }
{
    let answer = said(alloc, b"loaded")?;
    match load_file(alloc, kernels, name, files) {
        Ok(()) => Ok(answer),
        Err(fault) => refused(fault),
    }
}

/// The answer that a loading is refused so. Want of memory refuses no line.
fn refused(fault: KernelFault) -> Result<Answer, OutOfMemory>
    ensures { IfOk result (λ answer. (fault ≢ KernelFault.OutOfMemory) × (answer ≡ Refused (line_fault fault))) }
{
    match fault {
        KernelFault::OutOfMemory => Err(AllocError),
        fault => Ok(Answer::Refused(LineFault::from(fault))),
    }
}

/// Unloads the last loaded kernel of this name.
fn unload_named(alloc: Global, kernels: &mut Kernels, name: &[u8]) -> Result<Answer, OutOfMemory>
    ensures answered { IfOk result (λ answer. UnloadAnswers kernels.old.loaded name.now answer kernels.new.loaded) }
    ensures err { OnErr result (kernels.new.loaded ≡ kernels.old.loaded) }
{
    let answer = said(alloc, b"unloaded")?;
    match kernels.unload(name) {
        Ok(()) => Ok(answer),
        Err(NotLoaded) => Ok(Answer::Refused(LineFault::NotLoaded)),
    }
}

/// Unloads all kernels.
fn clear_all(alloc: Global, kernels: &mut Kernels) -> Result<Answer, OutOfMemory>
    ensures answered { IfOk result (λ answer. answer ≡ Text (codes "cleared")) }
    ensures cleared { IfOk result (λ answer. kernels.new.loaded ≡ []) }
    ensures err { OnErr result (kernels.new.loaded ≡ kernels.old.loaded) }
{
    let answer = said(alloc, b"cleared")?;
    kernels.clear();
    Ok(answer)
}

/// The name after a command's word and at least one blank.
fn name_behind<'a>(word: &[u8], text: &'a [u8]) -> Option<&'a [u8]>
    ensures some { IfSome result (λ name. NamesFile word.now text.now name.now) }
    ensures none { IsNone result → (name : List ℕ) → NamesFile word.now text.now name → ⊥ }
{
    let behind = text.strip_prefix(word)?;
    let name = skip_blanks(behind);
    if name.len() < behind.len() && is_file_name(name) {
        Some(name)
    } else {
        None
    }
}

/// Whether these bytes may be a file's name: UTF-8 of 1 to 255 bytes.
fn is_file_name(name: &[u8]) -> bool
    ensures yes { result ≡ true → IsFileName name.now }
    ensures no { result ≡ false → IsFileName name.now → ⊥ }
{
    1 <= name.len() && name.len() <= MAX_NAME && str::from_utf8(name).is_ok()
}
