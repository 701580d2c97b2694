//! How far UTC is behind TAI on a day.

ghost use Rattle.std.specs.Prelude.{◌≡◌, ◌≤◌, length, true, false, int_le, neg_ℤ, pos, ◌≤ℤ◌};
ghost use Rattle.std.specs.List.Sorted.{IsPartitionPoint};
ghost use Rattle.st_leaps.specs.Table as table;
ghost use Rattle.st_leaps.specs.Table.{IsLeapTable, Rise};

use crate::pair::LeapPair;

/// TAI minus UTC on a day, counted from 2000-01-01, in seconds.
#[tactic(auto, unfolding(crate::specs::Table::count_on))]
pub(crate) fn count_on(pairs: &[LeapPair], day: i32) -> i64
    requires { IsLeapTable pairs.now }
    ensures value { result ≡ table.count_on pairs.now day }
    ensures from { neg_ℤ (pos 1) ≤ℤ result }
    ensures to { result ≤ℤ pos 1000 }
{
    match last_pair(pairs, day) {
        Some(pair) => i64::from(pair.count),
        None => count_before(pairs),
    }
}

/// The count before the first pair: the first count less one.
fn count_before(pairs: &[LeapPair]) -> i64
    requires { IsLeapTable pairs.now }
    ensures value { result ≡ table.count_before pairs.now }
    ensures from { neg_ℤ (pos 1) ≤ℤ result }
    ensures to { result ≤ℤ pos 1000 }
{
    match pairs {
        [] => 0,
        [first, ..] => i64::from(first.count) - 1,
    }
}

/// The last pair whose date is at most a day.
fn last_pair(pairs: &[LeapPair], day: i32) -> Option<LeapPair>
    requires { Rise pairs.now }
    ensures { result ≡ table.last_pair pairs.now day }
{
    let until = pairs_until(pairs, day);
    if until == 0 {
        return None;
    }
    Some(pairs[until - 1])
}

/// How many pairs have a date that is at most a day. The pairs are searched by halves.
fn pairs_until(pairs: &[LeapPair], day: i32) -> usize
    requires { Rise pairs.now }
    ensures bound { result ≤ length pairs.now }
    ensures point { IsPartitionPoint
        (λ p. int_le p.day day ≡ true) (λ p. int_le p.day day ≡ false) pairs.now result }
{
    pairs.partition_point(
        |pair: &LeapPair| -> bool
            ensures { result ≡ int_le pair.now.day day }
        { pair.day <= day },
    )
}
