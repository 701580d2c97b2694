//! The values of the six variables from which a face is made, and what is asked of them.

ghost use Rattle.std.specs.Prelude.{◌≡◌, ◌≤◌, ◌↔◌, ◌^◌, List, ℕ, Some, IsTrue, IfSome, IfNone, MatchOption, length};
ghost use Rattle.std.specs.List.{All};
ghost use Rattle.st_ticks.specs.Face.{span, span_of_rest};
ghost use Rattle.st_ticks.specs.NumbersMachine.{numbers_of, IsEarly};
ghost use Rattle.st_rules.specs.Rules.{AreKept, IsFirstBroken};
ghost use Rattle.st_ticks.specs.Variables.{HaveModuli, IsNumber, Keeps, KeepsNFields, KeepsModuli, KeepsOffsets, KeepsDelim, KeepsStart, KeepsEnd, first_rules};
ghost use Rattle.st_ticks.specs.declared.field.Field.{Field as OneField};
ghost use Rattle.st_ticks.specs.declared.variable.ClockVar.TheVariants.{End as EndVar};

use crate::variable::{ClockFault, ClockVar, ClockWhy};
use crate::whole::{are_from, are_whole, natural};
use st_decimal::Dec;

/// The greatest number of a variable.
const MOST: u64 = 1_000_000_000_000_000_000;

/// The greatest product of all moduli but the first.
const MOST_TICKS: u128 = 1_000_000_000_000;

/// The greatest offset of a field.
const MOST_OFFSET: u64 = 1_000_000_000_000;

/// The most partitions of a clock.
const MOST_PARTITIONS: usize = 9_999;

/// The rules in the order in which they are looked at, up to those that need the partitions.
const RULES: [ClockFault; 17] = [
    ClockFault {
        var: ClockVar::NFields,
        why: ClockWhy::NotOne,
    },
    ClockFault {
        var: ClockVar::NFields,
        why: ClockWhy::NotWhole,
    },
    ClockFault {
        var: ClockVar::NFields,
        why: ClockWhy::Range,
    },
    ClockFault {
        var: ClockVar::Moduli,
        why: ClockWhy::Count,
    },
    ClockFault {
        var: ClockVar::Moduli,
        why: ClockWhy::NotWhole,
    },
    ClockFault {
        var: ClockVar::Moduli,
        why: ClockWhy::Range,
    },
    ClockFault {
        var: ClockVar::Moduli,
        why: ClockWhy::Product,
    },
    ClockFault {
        var: ClockVar::Offsets,
        why: ClockWhy::Count,
    },
    ClockFault {
        var: ClockVar::Offsets,
        why: ClockWhy::NotWhole,
    },
    ClockFault {
        var: ClockVar::Offsets,
        why: ClockWhy::Range,
    },
    ClockFault {
        var: ClockVar::Delim,
        why: ClockWhy::NotOne,
    },
    ClockFault {
        var: ClockVar::Delim,
        why: ClockWhy::Range,
    },
    ClockFault {
        var: ClockVar::Start,
        why: ClockWhy::Count,
    },
    ClockFault {
        var: ClockVar::Start,
        why: ClockWhy::NotWhole,
    },
    ClockFault {
        var: ClockVar::Start,
        why: ClockWhy::Range,
    },
    ClockFault {
        var: ClockVar::End,
        why: ClockWhy::Count,
    },
    ClockFault {
        var: ClockVar::End,
        why: ClockWhy::NotWhole,
    },
];

/// The values of the variables.
#[derive(Clone, Copy)]
pub struct Numbers<'a> {
    pub n_fields: &'a [Dec],
    pub moduli: &'a [Dec],
    pub offsets: &'a [Dec],
    pub delim: &'a [Dec],
    pub starts: &'a [Dec],
    pub ends: &'a [Dec],
}

/// The first of `RULES` that is broken.
pub fn first_broken(numbers: &Numbers) -> Option<ClockFault>
    ensures { MatchOption result (AreKept (Keeps (numbers_of numbers.now)) first_rules)
        (IsFirstBroken (Keeps (numbers_of numbers.now)) first_rules) }
{
    for broken in &RULES {
        if !keeps(numbers, *broken) {
            return Some(*broken);
        }
    }
    None
}

/// Whether a rule is kept.
fn keeps(numbers: &Numbers, asked: ClockFault) -> bool
    requires { IsEarly asked }
    ensures { IsTrue result ↔ Keeps (numbers_of numbers.now) asked }
{
    match asked.var {
        ClockVar::NFields => keeps_n_fields(numbers, asked.why),
        ClockVar::Moduli => keeps_moduli(numbers, asked.why),
        ClockVar::Offsets => keeps_offsets(numbers, asked.why),
        ClockVar::Delim => keeps_delim(numbers, asked.why),
        ClockVar::Start => keeps_start(numbers, asked.why),
        ClockVar::End => keeps_end(numbers, asked.why),
        _ => true,
    }
}

fn keeps_n_fields(numbers: &Numbers, why: ClockWhy) -> bool
    ensures { IsTrue result ↔ KeepsNFields (numbers_of numbers.now) why }
{
    match why {
        ClockWhy::NotOne => numbers.n_fields.len() == 1,
        ClockWhy::NotWhole => are_whole(numbers.n_fields),
        ClockWhy::Range => are_from(numbers.n_fields, 1, 10),
        _ => true,
    }
}

/// Whether there are as many values as fields.
fn are_as_many(n_fields: &[Dec], values: &[Dec]) -> bool
    ensures { IsTrue result ↔ All (IsNumber (length values.now)) n_fields.now }
{
    let many = values.len() as u64;
    are_from(n_fields, many, many)
}

fn keeps_moduli(numbers: &Numbers, why: ClockWhy) -> bool
    ensures { IsTrue result ↔ KeepsModuli (numbers_of numbers.now) why }
{
    match why {
        ClockWhy::Count => are_as_many(numbers.n_fields, numbers.moduli),
        ClockWhy::NotWhole => are_whole(numbers.moduli),
        ClockWhy::Range => are_from(numbers.moduli, 1, MOST),
        ClockWhy::Product => has_small_product(numbers.moduli),
        _ => true,
    }
}

/// Whether all moduli are in range, and the product of all but the first is small enough.
fn has_small_product(moduli: &[Dec]) -> bool
    ensures { IsTrue result ↔ ((fields : List OneField) × HaveModuli moduli.now fields × (span_of_rest fields ≤ 10 ^ 12)) }
{
    match moduli {
        [first, rest @ ..] => modulus_of(*first).is_some() && small_product(rest).is_some(),
        [] => true,
    }
}

/// The modulus that a decimal is, where it is in range.
fn modulus_of(d: Dec) -> Option<u64>
    ensures some { IfSome result (λ n. IsNumber n d) }
    ensures low { IfSome result (λ n. 1 ≤ n) }
    ensures high { IfSome result (λ n. n ≤ 10 ^ 18) }
    ensures only { (n : ℕ) → IsNumber n d → 1 ≤ n → n ≤ 10 ^ 18 → result ≡ Some n }
{
    let n = natural(d)?;
    if n >= 1 { Some(n) } else { None }
}

/// The product of moduli in range, where it is at most 10^12.
fn small_product(moduli: &[Dec]) -> Option<u64>
    ensures some { IfSome result (λ n. (fields : List OneField) × HaveModuli moduli.now fields × (n ≡ span fields)) }
    ensures small { IfSome result (λ n. n ≤ 10 ^ 12) }
    ensures none { IfNone result ((fields : List OneField) → HaveModuli moduli.now fields → span fields ≤ 10 ^ 12 → ⊥) }
{
    match moduli {
        [first, rest @ ..] => {
            let modulus = modulus_of(*first)?;
            let product = u128::from(modulus) * u128::from(small_product(rest)?);
            if product <= MOST_TICKS {
                Some(product as u64)
            } else {
                None
            }
        }
        [] => Some(1),
    }
}

fn keeps_offsets(numbers: &Numbers, why: ClockWhy) -> bool
    ensures { IsTrue result ↔ KeepsOffsets (numbers_of numbers.now) why }
{
    match why {
        ClockWhy::Count => are_as_many(numbers.n_fields, numbers.offsets),
        ClockWhy::NotWhole => are_whole(numbers.offsets),
        ClockWhy::Range => are_from(numbers.offsets, 0, MOST_OFFSET),
        _ => true,
    }
}

fn keeps_delim(numbers: &Numbers, why: ClockWhy) -> bool
    ensures { IsTrue result ↔ KeepsDelim (numbers_of numbers.now) why }
{
    match why {
        ClockWhy::NotOne => numbers.delim.len() == 1,
        ClockWhy::Range => are_from(numbers.delim, 1, 5),
        _ => true,
    }
}

fn keeps_start(numbers: &Numbers, why: ClockWhy) -> bool
    ensures { IsTrue result ↔ KeepsStart (numbers_of numbers.now) why }
{
    match why {
        ClockWhy::Count => !numbers.starts.is_empty() && numbers.starts.len() <= MOST_PARTITIONS,
        ClockWhy::NotWhole => are_whole(numbers.starts),
        ClockWhy::Range => are_from(numbers.starts, 0, MOST),
        _ => true,
    }
}

fn keeps_end(numbers: &Numbers, why: ClockWhy) -> bool
    requires { IsEarly (record { var = EndVar; why = why }) }
    ensures { IsTrue result ↔ KeepsEnd (numbers_of numbers.now) why }
{
    match why {
        ClockWhy::Count => numbers.ends.len() == numbers.starts.len(),
        ClockWhy::NotWhole => are_whole(numbers.ends),
        _ => true,
    }
}
