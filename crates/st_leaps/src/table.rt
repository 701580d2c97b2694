//! The table of leap seconds.

ghost use Rattle.std.specs.Prelude.{◌≡◌, OnOk, [], ◌∷◌, ◌++◌, ◌^◌, neg_ℤ, pos, ◌≤ℤ◌, ◌<ℤ◌, List, Result, MatchResult};
ghost use Rattle.st_dates.specs.Label.{IsFormal, formal};
ghost use Rattle.st_dates.specs.declared.label.Label.{Label as TheLabel};
ghost use Rattle.st_fraction.specs.Fraction.{units};
ghost use Rattle.st_leaps.specs.Faults.{Agree, Gives};
ghost use Rattle.st_leaps.specs.Label.{IsLabel, IsLabelOf, IsTai, in_units};
ghost use Rattle.st_leaps.specs.Table.{IsLeapTable};
ghost use Rattle.st_leaps.specs.declared.fault.LeapFault.{LeapFault as Fault};
ghost use Rattle.st_leaps.specs.declared.pair.LeapPair.{LeapPair as Pair};

use crate::fault::{LeapFault, NoSuchSecond};
use crate::label;
use crate::numbers::{next_pair, test_length};
use crate::pair::LeapPair;
use st_dates::Label;
use st_decimal::{Dec, OutOfMemory};
use std::alloc::Global;

/// A table of leap seconds: 1 to 1,000 pairs of a count and a date, with counts from 0 to 1,000
/// and midnights in the range of times, where each date is later than the one before, and
/// each count one more or one less. The limits are this project's own.
///
/// Source: the header of NAIF's leapseconds kernels, and Time Required Reading.
#[derive(Debug, Drop)]
pub struct LeapTable {
    pairs: Vec<LeapPair>,
    pub ghost is_table: { IsLeapTable pairs.items },
}

impl LeapTable {
    ghost use Rattle.st_leaps.specs.OfTable.{answer_of, count_of};

    /// The table that numbers spell: a count and a date in turn, a date in seconds past J2000 on
    /// days of 86,400 s.
    ///
    /// # Errors
    ///
    /// [`LeapFault`]: the first rule that the numbers break, in the order of its variants for the
    /// numbers together, and then for each pair in turn; or want of memory.
    pub fn from_pairs(alloc: Global, values: &[Dec]) -> Result<LeapTable, LeapFault>
        ensures gives { Gives values.now (answer_of result) }
        // No other answer meets it.
        ensures only { (answer : Result (List Pair) Fault)
            → Gives values.now answer → Agree (answer_of result) answer }
    {
        test_length(values)?;
        let mut pairs = Vec::new(alloc);
        while 2 * pairs.len() < values.len() {
            let pair = next_pair(values, pairs.as_slice())?;
            append(&mut pairs, pair)?;
        }
        Ok(LeapTable { pairs })
    }

    /// TAI of a UTC label, in units of 10^-18 s past J2000: the label's formal count, and the count
    /// of its day. The formal count is at most 6,311,600,000 s in magnitude.
    ///
    /// # Errors
    ///
    /// [`NoSuchSecond`] exactly where the label's day hasn't its second: 23:59:60 on a day at whose
    /// end no second is inserted, or 23:59:59 where one is removed.
    pub fn tai_of(&self, label: Label) -> Result<i128, NoSuchSecond>
        requires { IsFormal (formal label) }
        ensures { MatchResult result
            (λ tai. IsLabelOf (count_of self.now) (units tai) (in_units label))
            (λ _. IsLabel (count_of self.now) (in_units label) → ⊥) }
    {
        label::tai_of(self.pairs.as_slice(), label)
    }

    /// The UTC label of a TAI, in units of 10^-18 s past J2000. TAI is at most 6,311,500,000 s in
    /// magnitude.
    pub fn utc_of(&self, tai: i128) -> Label
        requires { IsTai tai }
        ensures is { IsLabelOf (count_of self.now) (units tai) (in_units result) }
        // No other label meets it.
        ensures only { (label : TheLabel)
            → IsLabelOf (count_of self.now) (units tai) (in_units label) → result ≡ label }
        ensures day_from { neg_ℤ (pos 73_050) ≤ℤ result.day }
        ensures day_to { result.day ≤ℤ pos 73_050 }
        ensures from { pos 0 ≤ℤ result.of_day }
        ensures to { result.of_day <ℤ pos 86_401_000_000_000_000_000_000 }
    {
        label::utc_of(self.pairs.as_slice(), tai)
    }
}

/// Adds a pair at the end.
fn append(pairs: &mut Vec<LeapPair>, pair: LeapPair) -> Result<(), OutOfMemory>
    ensures { OnOk result (pairs.new.items ≡ pairs.old.items ++ pair ∷ []) }
{
    pairs.push(pair)?;
    Ok(())
}

#[cfg(test)]
mod tests;
