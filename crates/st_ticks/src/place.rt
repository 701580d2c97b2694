//! The partition of a count and the partition of a tick.

ghost use Rattle.std.specs.Prelude.{◌≡◌, ◌≤◌, ◌<◌, length, IfSome, IsTrue, None, ℕ, nat_le, slice_index, ◌+◌, ◌-◌, ◌^◌};
ghost use Rattle.std.specs.List.Sorted.{IsNonDecreasingBy};
ghost use Rattle.st_ticks.specs.ReadingMachine as machine;

use crate::field::Partition;

/// Whether a partition has a count, from its start to its end.
fn has_count(partition: &Partition, count: u64) -> bool
    ensures { result ≡ machine.has_count count partition.now }
{
    partition.start <= count && count <= partition.end
}

/// Whether a written number is that of a partition; where none is written, every partition may be meant.
pub fn is_numbered(partitions: &[Partition], written: Option<u64>) -> bool
    ensures { result ≡ machine.is_numbered partitions.now written }
{
    match written {
        Some(number) => 1 <= number && number <= partitions.len() as u64,
        None => true,
    }
}

/// The place of the partition that is meant, if it has the count: the written one, or else the first
/// that has it.
pub fn meant_place(partitions: &[Partition], written: Option<u64>, count: u64) -> Option<usize>
    requires numbered { IsTrue (machine.is_numbered partitions.now written) }
    ensures value { result ≡ machine.meant_place partitions.now written count }
    ensures inside { IfSome result (λ place. place < length partitions.now) }
    ensures has { IfSome result (λ place. IsTrue (machine.has_count count (machine.partition_at partitions.now place))) }
{
    match written {
        Some(number) => {
            let place = (number - 1) as usize;
            if has_count(&partitions[place], count) {
                Some(place)
            } else {
                None
            }
        }
        None => first_place(partitions, count),
    }
}

/// The place of the first partition that has a count.
fn first_place(partitions: &[Partition], count: u64) -> Option<usize>
    ensures value { result ≡ machine.meant_place partitions.now None count }
    ensures inside { IfSome result (λ place. place < length partitions.now) }
    ensures has { IfSome result (λ place. IsTrue (machine.has_count count (machine.partition_at partitions.now place))) }
{
    partitions
        .iter()
        .position(|partition| has_count(partition, count))
}

/// How many partitions begin at a tick or before it. The search is by halves.
pub fn begun(begins: &[u64], ticks: u64) -> usize
    requires rising { IsNonDecreasingBy (λ (begin : ℕ). begin) begins.now }
    ensures bound { result ≤ length begins.now }
    ensures before { (i : ℕ) → i < result → slice_index begins.now i ≤ ticks }
    ensures after { (i : ℕ) → result ≤ i → i < length begins.now → ticks < slice_index begins.now i }
{
    begins.partition_point(
        |begin: &u64| -> bool
            ensures { result ≡ nat_le begin.now ticks }
        { *begin <= ticks },
    )
}

/// The count of a tick in the partition at a place.
pub fn count_at(partitions: &[Partition], begins: &[u64], place: usize, ticks: u64) -> u64
    requires here { place < length partitions.now }
    requires begins { place < length begins.now }
    requires begun { slice_index begins.now place ≤ ticks }
    requires small { (machine.partition_at partitions.now place).start + (ticks - slice_index begins.now place) ≤ 10 ^ 18 }
    ensures { result ≡ (machine.partition_at partitions.now place).start + (ticks - slice_index begins.now place) }
{
    partitions[place].start + (ticks - begins[place])
}
