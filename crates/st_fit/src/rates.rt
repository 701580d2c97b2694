//! The rates that fit a run.

ghost use Rattle.std.specs.Prelude.{◌≡◌, ◌↔◌, ℤ, ◌*◌, ◌^◌, ◌<◌, ◌≤◌, ◌<ℤ◌, ◌≤ℤ◌, ◌+ℤ◌, pos, take, length, unsigned_abs, IsTrue, Some, slice_get};
ghost use Rattle.st_fraction.specs.Fraction.{over};
ghost use Rattle.st_fraction.specs.Floor.{IsFloor};
ghost use Rattle.st_fit.specs.Fit.{Passes, IsRate, IsRun, IsMiddle, AreRising, AreSmallTerms, AreSmall};
ghost use Rattle.st_fit.specs.FitSteps.{Holds, AreRatesOf};

use crate::line::{greatest_over, least_over, times};
use crate::pair::{Pair, Terms};

/// The greatest rate, 10^5 s for one count: that of a clock's record.
const MOST_RATE: i128 = 100_000_000_000_000_000_000_000;

/// The rates from the least to the greatest, both included: none where the least is the greater one.
#[derive(Clone, Copy)]
pub struct Rates {
    pub least: i128,
    pub greatest: i128,
}

impl Rates {
    /// All rates that a record may have.
    pub fn all() -> Rates
        ensures least { result.least ≡ pos 1 }
        ensures greatest { result.greatest ≡ pos (10 ^ 23) }
    {
        Rates {
            least: 1,
            greatest: MOST_RATE,
        }
    }

    /// Whether there is no rate.
    pub fn is_empty(self) -> bool
        ensures { IsTrue result ↔ (self.greatest <ℤ self.least) }
    {
        self.greatest < self.least
    }

    /// Those of which the line through `start` passes `p`, a later pair, too.
    pub fn narrowed(self, terms: Terms, start: Pair, p: Pair) -> Rates
        requires terms { AreSmallTerms terms }
        requires start_small { unsigned_abs start.time ≤ 10 ^ 28 }
        requires small { unsigned_abs p.time ≤ 10 ^ 28 }
        requires later { start.ticks < p.ticks }
        ensures fits { (rate : ℤ) → Holds result rate → Holds self rate × Passes terms start rate p }
        ensures only { (rate : ℤ) → Holds self rate → Passes terms start rate p → Holds result rate }
    {
        let span = p.ticks - start.ticks;
        let rise = p.time - start.time;
        let low = times(rise - terms.tolerance, terms.tpm);
        let high = times(rise + terms.tolerance, terms.tpm);
        Rates {
            least: self.least.max(least_over(low, span)),
            greatest: self.greatest.min(greatest_over(high, span)),
        }
    }
}

/// The middle one of the rates that fit a run of two or more pairs.
pub fn middle_rate(terms: Terms, run: &[Pair]) -> i128
    requires terms { AreSmallTerms terms }
    requires rising { AreRising run.now }
    requires small { AreSmall run.now }
    requires more { 1 < length run.now }
    requires fits { (rate : ℤ) × IsRate terms run.now rate }
    ensures { IsMiddle terms run.now result }
{
    let rates = rates_of(terms, run);
    mean(rates.least, rates.greatest)
}

/// The rates that fit a run.
fn rates_of(terms: Terms, run: &[Pair]) -> Rates
    requires terms { AreSmallTerms terms }
    requires rising { AreRising run.now }
    requires small { AreSmall run.now }
    requires some { 0 < length run.now }
    ensures { AreRatesOf terms run.now result }
{
    let mut rates = Rates::all();
    for i in 1..run.len() {
        rates = rates.narrowed(terms, run[0], run[i]);
    }
    rates
}

/// The greatest whole number at most the mean of two rates.
fn mean(least: i128, greatest: i128) -> i128
    requires least { pos 1 ≤ℤ least }
    requires least_to { least ≤ℤ pos (10 ^ 23) }
    requires greatest { pos 1 ≤ℤ greatest }
    requires greatest_to { greatest ≤ℤ pos (10 ^ 23) }
    ensures { IsFloor (over (least +ℤ greatest) 2) result }
{
    (least + greatest).div_euclid(2)
}
