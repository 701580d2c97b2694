//! The best cutting of the last pairs, for each number of them.

ghost use Rattle.std.specs.Prelude.{◌≡◌, ℕ, ◌+◌, ◌-◌, ◌^◌, ◌<◌, ◌≤◌, ◌⊎◌, length, IfOk};
ghost use Rattle.st_fit.specs.Fit.{AreRising, AreSmallTerms, AreSmall};
ghost use Rattle.st_fit.specs.FitSteps.{IsStart, AreStarts};

use crate::pair::{Pair, Terms};
use crate::rates::Rates;
use std::alloc::{AllocError, Global};

/// What is kept of the best cutting of some last pairs: how many runs it has, and how many pairs its first one.
#[derive(Clone, Copy)]
pub struct Start {
    pub runs: usize,
    pub first: usize,
}

impl Start {
    /// Another start with a longer first run, where it has no more runs.
    fn or(self, longer: Start) -> Start
        ensures few { longer.runs ≤ self.runs → result ≡ longer }
        ensures many { self.runs < longer.runs → result ≡ self }
    {
        if longer.runs <= self.runs {
            longer
        } else {
            self
        }
    }
}

/// The start of the best cutting of the last n pairs at each place n, from 0 to all of them.
pub fn starts(alloc: Global, terms: Terms, pairs: &[Pair]) -> Result<Vec<Start>, AllocError>
    requires terms { AreSmallTerms terms }
    requires rising { AreRising pairs.now }
    requires small { AreSmall pairs.now }
    ensures { IfOk result (λ starts. (length starts.items ≡ length pairs.now + 1) × AreStarts terms pairs.now starts.items) }
{
    let mut starts = Vec::new(alloc);
    starts.push(Start { runs: 0, first: 0 })?;
    for n in 0..pairs.len() {
        let start = start_of(terms, &pairs[pairs.len() - 1 - n..], starts.as_slice());
        starts.push(start)?;
    }
    Ok(starts)
}

/// The start of the best cutting of pairs, by the starts of fewer last ones.
fn start_of(terms: Terms, pairs: &[Pair], later: &[Start]) -> Start
    requires terms { AreSmallTerms terms }
    requires rising { AreRising pairs.now }
    requires small { AreSmall pairs.now }
    requires some { 0 < length pairs.now }
    requires count { length later.now ≡ length pairs.now }
    requires each { AreStarts terms pairs.now later.now }
    ensures { IsStart terms pairs.now result }
{
    let mut rates = Rates::all();
    let mut best = Start {
        runs: later[pairs.len() - 1].runs + 1,
        first: 1,
    };
    for i in 1..pairs.len() {
        rates = rates.narrowed(terms, pairs[0], pairs[i]);
        if rates.is_empty() {
            return best;
        }
        best = best.or(Start {
            runs: later[pairs.len() - 1 - i].runs + 1,
            first: i + 1,
        });
    }
    best
}
