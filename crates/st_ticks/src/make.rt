//! The parts of a face, made of numbers that keep all rules.

ghost use Rattle.std.specs.Prelude.{◌≡◌, ◌≤◌, ◌<◌, ◌^◌, List, ℕ, IfOk, IfErr, IfSome, IfNone, length, take, slice_index, OnOk, ◌++◌, ◌∷◌, []};
ghost use Rattle.std.specs.List.{All, sum_by};
ghost use Rattle.st_ticks.specs.Face.{IsField, IsPartition, span, span_of_rest, ticks_in};
ghost use Rattle.st_ticks.specs.MakingMachine.{LacksEnds};
ghost use Rattle.st_ticks.specs.Variables.{delimiter_of as delimiter, HaveEnds, HaveModuli, HaveOffsets, IsFrom, IsNumber};

use crate::fault::FaceFault;
use crate::field::{Field, Partition};
use crate::variable::{ClockFault, ClockVar, ClockWhy};
use crate::whole::natural;
use st_decimal::{Dec, OutOfMemory};
use std::alloc::Global;

/// The greatest count, and the greatest total.
const MOST: u64 = 1_000_000_000_000_000_000;

/// The number that a decimal is.
pub fn number(d: Dec) -> u64
    requires { IsFrom 0 (10 ^ 18) d }
    ensures value { IsNumber result d }
    ensures small { result ≤ 10 ^ 18 }
{
    natural(d).unwrap_or(0)
}

/// The fields of these moduli and offsets.
pub fn fields_of(alloc: Global, moduli: &[Dec], offsets: &[Dec]) -> Result<Vec<Field>, OutOfMemory>
    requires same { length offsets.now ≡ length moduli.now }
    requires moduli { All (IsFrom 1 (10 ^ 18)) moduli.now }
    requires offsets { All (IsFrom 0 (10 ^ 12)) offsets.now }
    ensures moduli { IfOk result (λ v. HaveModuli moduli.now v.items) }
    ensures offsets { IfOk result (λ v. HaveOffsets offsets.now v.items) }
{
    let mut fields = Vec::with_capacity(alloc, moduli.len())?;
    for (i, modulus) in moduli.iter().enumerate() {
        fields.push(Field {
            modulus: number(*modulus),
            offset: number(offsets[i]),
        })?;
    }
    Ok(fields)
}

/// The partitions of these starts and ends.
///
/// # Errors
///
/// That an end is out of its range, and want of memory.
pub fn partitions_of(
    alloc: Global,
    starts: &[Dec],
    ends: &[Dec],
) -> Result<Vec<Partition>, FaceFault>
    requires same { length ends.now ≡ length starts.now }
    requires starts { All (IsFrom 0 (10 ^ 18)) starts.now }
    ensures ok { IfOk result (λ v. HaveEnds starts.now ends.now v.items) }
    ensures bad { IfErr result (LacksEnds starts.now ends.now) }
{
    let mut partitions = Vec::with_capacity(alloc, starts.len())?;
    for (i, start) in starts.iter().enumerate() {
        let start = number(*start);
        let Some(end) = end_of(start, ends[i]) else {
            return Err(FaceFault::Bad(ClockFault {
                var: ClockVar::End,
                why: ClockWhy::Range,
            }));
        };
        append(&mut partitions, Partition { start, end })?;
    }
    Ok(partitions)
}

fn append(partitions: &mut Vec<Partition>, partition: Partition) -> Result<(), OutOfMemory>
    ensures { OnOk result (partitions.new.items ≡ partitions.old.items ++ partition ∷ []) }
{
    partitions.push(partition)?;
    Ok(())
}

/// The end that a decimal is, where it is from its start to 10^18.
fn end_of(start: u64, d: Dec) -> Option<u64>
    ensures some { IfSome result (λ n. IsNumber n d) }
    ensures from { IfSome result (λ n. start ≤ n) }
    ensures to { IfSome result (λ n. n ≤ 10 ^ 18) }
    ensures none { IfNone result ((n : ℕ) → IsNumber n d → start ≤ n → n ≤ 10 ^ 18 → ⊥) }
{
    let n = natural(d)?;
    if start <= n { Some(n) } else { None }
}

/// The ticks of all partitions, where they are at most 10^18.
pub fn total_of(partitions: &[Partition]) -> Option<u64>
    requires { All IsPartition partitions.now }
    ensures some { IfSome result (λ n. n ≡ sum_by ticks_in partitions.now) }
    ensures small { IfSome result (λ n. n ≤ 10 ^ 18) }
    ensures none { IfNone result (10 ^ 18 < sum_by ticks_in partitions.now) }
{
    let mut total = 0;
    for partition in partitions {
        total += partition.end - partition.start;
        if total > MOST {
            return None;
        }
    }
    Some(total)
}

/// For each partition the ticks of the earlier ones.
pub fn begins_of(alloc: Global, partitions: &[Partition]) -> Result<Vec<u64>, OutOfMemory>
    requires partitions { All IsPartition partitions.now }
    requires small { sum_by ticks_in partitions.now ≤ 10 ^ 18 }
    ensures length { IfOk result (λ v. length v.items ≡ length partitions.now) }
    ensures sums { IfOk result (λ v. (place : ℕ) → place < length partitions.now
        → slice_index v.items place ≡ sum_by ticks_in (take place partitions.now)) }
{
    let mut begins = Vec::with_capacity(alloc, partitions.len())?;
    let mut before = 0;
    for partition in partitions {
        begins.push(before)?;
        before += partition.end - partition.start;
    }
    Ok(begins)
}

/// The product of all moduli but the first.
pub fn rest_span(fields: &[Field]) -> u64
    requires fields { All IsField fields.now }
    requires small { span_of_rest fields.now ≤ 10 ^ 12 }
    ensures { result ≡ span_of_rest fields.now }
{
    match fields {
        [_, rest @ ..] => product(rest),
        [] => 1,
    }
}

fn product(fields: &[Field]) -> u64
    requires fields { All IsField fields.now }
    requires small { span fields.now ≤ 10 ^ 12 }
    ensures { result ≡ span fields.now }
{
    let mut product = 1;
    for field in fields {
        product *= field.modulus;
    }
    product
}

/// The delimiter of a code from 1 to 5.
pub fn delimiter_of(code: u64) -> u8
    ensures { result ≡ delimiter code }
{
    match code {
        1 => b'.',
        2 => b':',
        3 => b'-',
        4 => b',',
        _ => b' ',
    }
}
