//! One option with its value.

ghost use Rattle.std.specs.Prelude.{◌≡◌, ◌≢◌, ◌≤◌, ◌<◌, ◌+◌, ◌^◌, Ok, Err, IfOk, IfErr, IfSome, OnOk, ◌∷◌, ◌++◌, not, map, string_bytes, length};
ghost use Rattle.std.specs.List.{prefix_len, flat_map};
ghost use Rattle.st_words.specs.Values as spec;
ghost use Rattle.st_words.specs.WordsMachine as machine;
ghost use Rattle.st_words.specs.declared.fault.WordFault.TheVariants as faults;

use crate::fault::WordFault;
use crate::number::{clock_of, number_within};
use crate::opt::{Opt, is_option};
use crate::system::system_of;
use crate::time_type::{TimeType, type_of};
use st_dates::System;
use st_decimal::{KText, OutOfMemory};
use std::alloc::Global;

/// The most bytes of a file's name.
const MOST_NAME: usize = 255;

/// The most lines of a sample.
const MOST_LINES: u64 = 1_000_000;

/// An option with what its value means.
#[derive(Debug, Drop)]
pub enum Choice {
    Setup(KText),
    From(System),
    FromType(TimeType),
    To(System),
    ToType(TimeType),
    Format(KText),
    Time(KText),
    Batch,
    Sample { lines: u32, seed: u64 },
    Sc(u32),
    Back,
}

/// The option whose word stands at a place, with the value that stands after it, and how many words
/// that value has.
#[tactic(auto, using(crate::proofs::Lists::take_of_map))]
pub fn read_choice(
    alloc: Global,
    opt: Opt,
    place: usize,
    more: &[String],
) -> Result<(Choice, usize), WordFault>
    requires { place + 2 < 2 ^ 64 }
    ensures ok { IfOk result (λ read. machine.choice_of opt place (map string_bytes more.now) ≡ Ok (read.0, read.1)) }
    ensures err { IfErr result (λ fault. fault ≢ faults.OutOfMemory → machine.choice_of opt place (map string_bytes more.now) ≡ Err fault) }
    ensures within { IfOk result (λ read. read.1 ≤ length more.now) }
{
    let Some(count) = value_count(opt, more) else {
        return Err(WordFault::NoValue(place));
    };
    let choice = read_value(alloc, opt, place, &more[..count])?;
    Ok((choice, count))
}

/// How many words the value of an option has that stands before these words; none where it has too few.
#[tactic(auto, using(crate::proofs::Lists::prefix_of_map))]
fn value_count(opt: Opt, more: &[String]) -> Option<usize>
    ensures count { result ≡ machine.value_count opt (map string_bytes more.now) }
    ensures within { IfSome result (λ count. count ≤ length more.now) }
{
    let plain = plain_count(more);
    match opt {
        Opt::Batch | Opt::Back => Some(0),
        Opt::Sample => at_least(2, plain),
        Opt::Format | Opt::Time => { if plain == 0 { None } else { Some(plain) } }
        _ => at_least(1, plain),
    }
}

/// As many words as a value has, where there are so many.
fn at_least(wanted: usize, plain: usize) -> Option<usize>
    ensures count { result ≡ machine.at_least wanted plain }
    ensures within { IfSome result (λ count. count ≤ plain) }
{
    if plain < wanted { None } else { Some(wanted) }
}

/// How many words stand before the first that names an option.
fn plain_count(words: &[String]) -> usize
    ensures count { result ≡ prefix_len (λ word. not (machine.is_option (string_bytes word))) words.now }
    ensures within { result ≤ length words.now }
{
    words
        .iter()
        .take_while(|word| !is_option(word.as_bytes()))
        .count()
}

/// The option at a place with the value that these words are.
fn read_value(alloc: Global, opt: Opt, place: usize, values: &[String]) -> Result<Choice, WordFault>
    requires { place + 2 < 2 ^ 64 }
    ensures ok { IfOk result (λ choice. machine.value_of opt place (map string_bytes values.now) ≡ Ok choice) }
    ensures err { IfErr result (λ fault. fault ≢ faults.OutOfMemory → machine.value_of opt place (map string_bytes values.now) ≡ Err fault) }
{
    match opt {
        Opt::Batch => Ok(Choice::Batch),
        Opt::Back => Ok(Choice::Back),
        Opt::Format => Ok(Choice::Format(joined(alloc, values)?)),
        Opt::Time => Ok(Choice::Time(joined(alloc, values)?)),
        Opt::Sample => match values {
            [lines, seed] => read_sample(place, lines.as_bytes(), seed.as_bytes()),
            _ => Err(WordFault::NoValue(place)),
        },
        _ => match values {
            [word] => read_single(alloc, opt, place, word.as_bytes()),
            _ => Err(WordFault::NoValue(place)),
        },
    }
}

/// Some words in a row, with one blank between each two.
fn joined(alloc: Global, words: &[String]) -> Result<KText, OutOfMemory>
    ensures { IfOk result (λ text. text ≡ spec.joined (map string_bytes words.now)) }
{
    match words {
        [] => Ok(KText::new(alloc)),
        [first, more @ ..] => {
            let mut text = KText::from_slice(alloc, first.as_bytes())?;
            add_words(&mut text, more)?;
            Ok(text)
        }
    }
}

/// Appends some words, each with a blank before it.
fn add_words(text: &mut KText, words: &[String]) -> Result<(), OutOfMemory>
    ensures { OnOk result (text.new ≡ text.old ++ flat_map (λ word. 32 ∷ string_bytes word) words.now) }
{
    for word in words {
        text.push(b' ')?;
        text.extend_from_slice(word.as_bytes())?;
    }
    Ok(())
}

/// The lines and the seed of a sample.
fn read_sample(place: usize, lines: &[u8], seed: &[u8]) -> Result<Choice, WordFault>
    requires { place + 2 < 2 ^ 64 }
    ensures { result ≡ machine.sample_of place lines.now seed.now }
{
    let Some(lines) = number_within(lines, 1, MOST_LINES) else {
        return Err(WordFault::BadNumber(place + 1));
    };
    let Some(seed) = number_within(seed, 0, u64::MAX) else {
        return Err(WordFault::BadNumber(place + 2));
    };
    Ok(Choice::Sample {
        lines: lines as u32,
        seed,
    })
}

/// An option whose value is one word.
fn read_single(alloc: Global, opt: Opt, place: usize, word: &[u8]) -> Result<Choice, WordFault>
    requires { place + 2 < 2 ^ 64 }
    ensures ok { IfOk result (λ choice. machine.single_of opt place word.now ≡ Ok choice) }
    ensures err { IfErr result (λ fault. fault ≢ faults.OutOfMemory → machine.single_of opt place word.now ≡ Err fault) }
{
    match single(alloc, opt, word)? {
        Some(choice) => Ok(choice),
        None => Err(bad(opt, place + 1)),
    }
}

/// The fault of a word that means nothing as the value of an option.
fn bad(opt: Opt, place: usize) -> WordFault
    ensures { result ≡ machine.bad_of opt place }
{
    match opt {
        Opt::Sc | Opt::Sample => WordFault::BadNumber(place),
        _ => WordFault::BadValue(place),
    }
}

/// What one word means as the value of an option.
fn single(alloc: Global, opt: Opt, word: &[u8]) -> Result<Option<Choice>, OutOfMemory>
    ensures { IfOk result (λ choice. choice ≡ machine.meaning_of opt word.now) }
{
    match opt {
        Opt::Setup if is_name(word) => Ok(Some(Choice::Setup(KText::from_slice(alloc, word)?))),
        Opt::From => Ok(system_of(word).map(Choice::From)),
        Opt::FromType => Ok(type_of(word).map(Choice::FromType)),
        Opt::To => Ok(system_of(word).map(Choice::To)),
        Opt::ToType => Ok(type_of(word).map(Choice::ToType)),
        Opt::Sc => Ok(clock_of(word).map(Choice::Sc)),
        _ => Ok(None),
    }
}

/// Whether a file's name has 1 to 255 bytes.
fn is_name(word: &[u8]) -> bool
    ensures { result ≡ machine.is_name word.now }
{
    1 <= word.len() && word.len() <= MOST_NAME
}
