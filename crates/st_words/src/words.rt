//! The words of the program.

ghost use Rattle.std.specs.Prelude.{◌≡◌, ◌≢◌, Result, Ok, Err, IfOk, IfErr, map, string_bytes};
ghost use Rattle.st_words.specs.Job.{IsGoodJob};
ghost use Rattle.st_words.specs.Reading.{WordsGive};
ghost use Rattle.st_words.specs.declared.fault.WordFault.{WordFault as TheFault};
ghost use Rattle.st_words.specs.declared.fault.WordFault.TheVariants as faults;
ghost use Rattle.st_words.specs.declared.job.Job.{Job as TheJob};

use crate::fault::WordFault;
use crate::job::Job;
use crate::make::make_job;
use crate::reading::read_options;
use std::alloc::Global;

/// What the words of the program ask for: a job that a session can be opened for.
///
/// Options and their values are after the CHRONOS User's Guide; option words, systems and types are
/// taken in any letter case. The value of an option is the words after it, none of which names an
/// option: all of them up to the next option for `-format` and `-time`, with one blank between each
/// two, two words for `-sample`, none for `-batch` and `-back`, and else one.
///
/// # Errors
///
/// [`WordFault`]: the leftmost fault that has a place; where there is none, that of the first rule
/// that the options break together; or want of memory.
pub fn read_words(alloc: Global, words: &[String]) -> Result<Job, WordFault>
    ensures ok { IfOk result (λ job. WordsGive (map string_bytes words.now) (Ok job)) }
    ensures err { IfErr result (λ fault. fault ≢ faults.OutOfMemory → WordsGive (map string_bytes words.now) (Err fault)) }
    ensures only { (answer : Result TheJob TheFault) → WordsGive (map string_bytes words.now) answer
        → result ≢ Err faults.OutOfMemory → result ≡ answer }
    ensures good { IfOk result IsGoodJob }
{
    judged(alloc, words)
}

/// The job, or the first fault of the words.
fn judged(alloc: Global, words: &[String]) -> Result<Job, WordFault>
    ensures ok { IfOk result (λ job. WordsGive (map string_bytes words.now) (Ok job)) }
    ensures err { IfErr result (λ fault. fault ≢ faults.OutOfMemory → WordsGive (map string_bytes words.now) (Err fault)) }
{
    let options = read_options(alloc, words)?;
    make_job(alloc, options)
}
