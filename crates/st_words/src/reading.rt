//! The words, read from the left.

ghost use Rattle.std.specs.Prelude.{◌≡◌, ◌≢◌, ◌≤◌, ◌<◌, ◌+◌, ◌^◌, Ok, Err, IfOk, IfErr, map, string_bytes, drop, length};
ghost use Rattle.st_words.specs.Cut.{nothing};
ghost use Rattle.st_words.specs.WordsMachine as machine;
ghost use Rattle.st_words.specs.declared.fault.WordFault.TheVariants as faults;

use crate::choice::{Choice, read_choice};
use crate::fault::WordFault;
use crate::opt::option_of;
use crate::options::Options;
use std::alloc::Global;

/// What the options of the words ask for together.
///
/// # Errors
///
/// The first of the faults that name a place, or want of memory.
pub fn read_options(alloc: Global, words: &[String]) -> Result<Options, WordFault>
    ensures ok { IfOk result (λ options. machine.read nothing 1 0 (map string_bytes words.now) ≡ Ok options) }
    ensures err { IfErr result (λ fault. fault ≢ faults.OutOfMemory → machine.read nothing 1 0 (map string_bytes words.now) ≡ Err fault) }
{
    let mut options = Options::new();
    let mut rest = words;
    let mut place = 1;
    while let [word, more @ ..] = rest {
        let (choice, count) = read_option(alloc, &options, place, word.as_bytes(), more)?;
        options.add(choice);
        rest = behind(more, count);
        place += 1 + count;
    }
    Ok(options)
}

/// The words after the first few.
fn behind(words: &[String], count: usize) -> &[String]
    requires { count ≤ length words.now }
    ensures { result.now ≡ drop count words.now }
{
    &words[count..]
}

/// The option whose word stands at a place, with its value, and how many words that has.
fn read_option(
    alloc: Global,
    options: &Options,
    place: usize,
    word: &[u8],
    more: &[String],
) -> Result<(Choice, usize), WordFault>
    requires { place + 2 < 2 ^ 64 }
    ensures ok { IfOk result (λ read. machine.option_at options.now place word.now (map string_bytes more.now) ≡ Ok (read.0, read.1)) }
    ensures err { IfErr result (λ fault. fault ≢ faults.OutOfMemory → machine.option_at options.now place word.now (map string_bytes more.now) ≡ Err fault) }
    ensures within { IfOk result (λ read. read.1 ≤ length more.now) }
{
    match option_of(word) {
        None => Err(WordFault::Unknown(place)),
        Some(opt) if options.has(opt) => Err(WordFault::Twice(place)),
        Some(opt) => read_choice(alloc, opt, place, more),
    }
}
