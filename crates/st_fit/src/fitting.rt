//! The fit of pairs.

ghost use Rattle.std.specs.Prelude.{◌≡◌, ℕ, ℤ, ◌+◌, ◌-◌, ◌^◌, ◌<◌, ◌≤◌, pos, length, List, IfOk};
ghost use Rattle.st_fit.specs.Fit.{terms as terms_of, IsRate, IsRecordOf, IsFit, AreRising, AreSmallTerms, AreSmall};
ghost use Rattle.st_fit.specs.FitSteps.{AreStarts};
ghost use Rattle.st_fit.specs.declared.pair.Record.{Record as Written};

use crate::pair::{Pair, Record, Terms};
use crate::rates::middle_rate;
use crate::starts::{Start, starts};
use std::alloc::{AllocError, Global};

/// The rate of a first run of one pair: one second for each count of the clock's first field.
const SECOND: i128 = 1_000_000_000_000_000_000;

/// The fewest records that pass within a tolerance of each pair, with the longest first run, then the longest second
/// one, and so on.
///
/// `tpm` is how many ticks are one count of the clock's first field, from 1 to 10^9; the tolerance is from 0 to 10 s, in
/// units. Ticks and times of the pairs rise strictly, and no time is beyond 10^10 s. A record starts at its first pair;
/// its rate is the middle one of those that fit, or where it has one pair that of the record before, at first one second
/// for each count. It takes time as the square of the number of pairs, at worst.
///
/// # Errors
///
/// Want of memory.
pub fn fit(
    alloc: Global,
    tpm: u64,
    pairs: &[Pair],
    tolerance: i128,
) -> Result<Vec<Record>, AllocError>
    requires small_terms { AreSmallTerms (terms_of tpm tolerance) }
    requires rising { AreRising pairs.now }
    requires small { AreSmall pairs.now }
    ensures fit { IfOk result (λ records. IsFit (terms_of tpm tolerance) pairs.now records.items) }
    ensures only { (answer : List Written) → IsFit (terms_of tpm tolerance) pairs.now answer → IfOk result (λ records. records.items ≡ answer) }
{
    fit_to(alloc, Terms { tpm, tolerance }, pairs)
}

/// The fit by its terms.
fn fit_to(alloc: Global, terms: Terms, pairs: &[Pair]) -> Result<Vec<Record>, AllocError>
    requires terms { AreSmallTerms terms }
    requires rising { AreRising pairs.now }
    requires small { AreSmall pairs.now }
    ensures { IfOk result (λ records. IsFit terms pairs.now records.items) }
{
    let starts = starts(alloc, terms, pairs)?;
    records_of(alloc, terms, pairs, starts.as_slice())
}

/// The records of the best cutting, by the starts of the last pairs.
fn records_of(
    alloc: Global,
    terms: Terms,
    pairs: &[Pair],
    starts: &[Start],
) -> Result<Vec<Record>, AllocError>
    requires terms { AreSmallTerms terms }
    requires rising { AreRising pairs.now }
    requires small { AreSmall pairs.now }
    requires count { length starts.now ≡ length pairs.now + 1 }
    requires each { AreStarts terms pairs.now starts.now }
    ensures { IfOk result (λ records. IsFit terms pairs.now records.items) }
{
    let mut records = Vec::new(alloc);
    let mut rate = SECOND;
    let mut from = 0;
    while from < pairs.len() {
        let length = starts[pairs.len() - from].first;
        let r = record_of(terms, &pairs[from..from + length], rate);
        records.push(r)?;
        rate = r.rate;
        from += length;
    }
    Ok(records)
}

/// The record of a run, after a record with the rate `before`.
fn record_of(terms: Terms, run: &[Pair], before: i128) -> Record
    requires terms { AreSmallTerms terms }
    requires rising { AreRising run.now }
    requires small { AreSmall run.now }
    requires some { 0 < length run.now }
    requires fits { (rate : ℤ) × IsRate terms run.now rate }
    ensures { IsRecordOf terms before run.now result }
{
    let start = run[0];
    let rate = if run.len() == 1 {
        before
    } else {
        middle_rate(terms, run)
    };
    Record {
        ticks: start.ticks,
        time: start.time,
        rate,
    }
}
