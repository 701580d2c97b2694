//! Numbers that spell pairs: a count and a date in turn.

ghost use Rattle.std.specs.Prelude.{◌≡◌, ◌+◌, ◌*◌, ◌++◌, ◌∷◌, [], ℕ, ℤ, ◌<◌, ◌≤◌, length, IfOk, IfErr, IfSome, IsNone, OnOk, Some};
ghost use Rattle.st_leaps.specs.Faults.{IsFirstFault};
ghost use Rattle.st_leaps.specs.Numbers.{IsCount, IsMidnight};
ghost use Rattle.st_leaps.specs.NumbersMachine.{AreSpelled, HasLength, PairGives, StepGives};

use crate::fault::LeapFault;
use crate::pair::LeapPair;
use st_dates::{FIRST, LAST, label_of};
use st_decimal::Dec;

/// The most pairs of a table.
const MAX_PAIRS: usize = 1000;

/// The greatest count.
const MAX_COUNT: u32 = 1000;

/// Tests the rules that speak of all numbers together.
pub(crate) fn test_length(numbers: &[Dec]) -> Result<(), LeapFault>
    ensures ok { OnOk result (HasLength (length numbers.now)) }
    ensures fault { IfErr result (IsFirstFault numbers.now) }
{
    if numbers.is_empty() {
        Err(LeapFault::Empty)
    } else if numbers.len() % 2 == 1 {
        Err(LeapFault::Odd)
    } else if numbers.len() > 2 * MAX_PAIRS {
        Err(LeapFault::TooMany)
    } else {
        Ok(())
    }
}

/// The pair after those that the numbers have spelled so far.
pub(crate) fn next_pair(numbers: &[Dec], pairs: &[LeapPair]) -> Result<LeapPair, LeapFault>
    requires size { HasLength (length numbers.now) }
    requires spelled { AreSpelled numbers.now pairs.now }
    requires more { 2 * length pairs.now < length numbers.now }
    ensures ok { IfOk result (λ pair. AreSpelled numbers.now (pairs.now ++ pair ∷ [])) }
    ensures fault { IfErr result (IsFirstFault numbers.now) }
{
    let place = 2 * pairs.len();
    let number = pairs.len() as u32 + 1;
    let pair = pair_of(numbers[place], numbers[place + 1], number)?;
    if let Some(before) = pairs.last() {
        test_step(*before, pair, number)?;
    }
    Ok(pair)
}

/// The pair of a count and a date.
fn pair_of(count: Dec, date: Dec, number: u32) -> Result<LeapPair, LeapFault>
    ensures { PairGives count date number result }
{
    let Some(count) = count_of(count) else {
        return Err(LeapFault::NotWhole(number));
    };
    let Some(day) = day_of(date) else {
        return Err(LeapFault::NotMidnight(number));
    };
    Ok(LeapPair { count, day })
}

/// Tests the rules of a pair and the one before it.
fn test_step(before: LeapPair, pair: LeapPair, number: u32) -> Result<(), LeapFault>
    ensures { StepGives before pair number result }
{
    if pair.day <= before.day {
        Err(LeapFault::NotRising(number))
    } else if pair.count.abs_diff(before.count) != 1 {
        Err(LeapFault::BadStep(number))
    } else {
        Ok(())
    }
}

/// The count that a number is, if it is one.
fn count_of(number: Dec) -> Option<u32>
    ensures some { IfSome result (IsCount number) }
    ensures none { IsNone result → (count : ℕ) → IsCount number count → ⊥ }
{
    let count = u32::try_from(number.whole()?).ok()?;
    if count > MAX_COUNT {
        return None;
    }
    Some(count)
}

/// The day that begins at a number of seconds, if a pair may have it.
fn day_of(number: Dec) -> Option<i32>
    ensures some { IfSome result (IsMidnight number) }
    ensures none { IsNone result → (day : ℤ) → IsMidnight number day → ⊥ }
{
    let time = number.units18()?;
    if time < FIRST || LAST < time {
        return None;
    }
    let label = label_of(time);
    if label.of_day != 0 {
        return None;
    }
    Some(label.day)
}
