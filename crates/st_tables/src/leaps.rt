//! The table of leap seconds of the loaded kernels, and its numbers.

ghost use Rattle.std.specs.Prelude.{◌≡◌, ◌≢◌, Ok, Err, Some, IfOk, IfErr, OnOk, OnErr, IsOk, IsTrue, ◌↔◌, option_map};
ghost use Rattle.st_leaps.specs.OfTable.{pairs_of};
ghost use Rattle.st_rules.specs.Rules.{AreKept};
ghost use Rattle.st_ticks.specs.declared.variable.Var.TheVariants.{DeltaAt as Leap};
ghost use Rattle.st_tables.specs.Tables.{LeapsGive, LeapsMade};
ghost use Rattle.st_tables.specs.KeptSteps.{AreLeaps};
ghost use Rattle.st_tables.specs.Variables.{Keeps, all_numbers, leap_vars, numbers_of, rules_of_all};
ghost use Rattle.st_tables.specs.declared.fault.TableFault.TheVariants.{OutOfMemory as NoMemory};

use crate::fault::TableFault;
use crate::kinds::first_refused;
use crate::numbers::{Numbers, are_given, read_numbers};
use st_leaps::LeapTable;
use st_pool::Pool;
use st_ticks::Var;
use std::alloc::Global;
use std::marker::Model;

/// The variable of the table.
const VARS: [Var; 1] = [Var::DeltaAt];

/// A table of leap seconds, and the numbers from which it was made.
#[derive(Debug, Drop)]
pub struct KeptLeaps {
    numbers: Numbers,
    table: LeapTable,
}

impl Model for KeptLeaps {
    ghost use Rattle.std.specs.Prelude.{List};
    ghost use Rattle.st_decimal.specs.declared.number.Dec.{Dec as Decimal};
    ghost use Rattle.st_leaps.specs.declared.table.LeapTable.{LeapTable as Leaps};
    ghost use Rattle.st_leaps.specs.OfTable.{pairs_of};
    ghost use Rattle.st_tables.specs.KeptSteps.{AreLeaps};

    ghost Value = { List (List Decimal) × Leaps };

    ghost view = { λ k. (k.numbers, k.table) };

    ghost invariant = { λ k. AreLeaps k.numbers (pairs_of k.table) };
}

impl KeptLeaps {
    /// The table.
    pub fn table(&self) -> &LeapTable
        ensures value { result.now ≡ self.now.1 }
        ensures made { AreLeaps self.now.0 (pairs_of self.now.1) }
    {
        &self.table
    }

    /// Whether the loaded kernels give the numbers from which the table was made.
    fn is_of(&self, pool: &Pool) -> bool
        requires { AreKept (Keeps pool.now) (rules_of_all leap_vars) }
        ensures { IsTrue result ↔ (self.now.0 ≡ all_numbers pool.now leap_vars) }
    {
        are_given(pool, &VARS, self.numbers.as_slice())
    }
}

/// Keeps the table of the loaded kernels, in place of one of other numbers.
pub fn keep(alloc: Global, kept: &mut Option<KeptLeaps>, pool: &Pool) -> Result<(), TableFault>
    ensures kinds { OnOk result (AreKept (Keeps pool.now) (rules_of_all leap_vars)) }
    ensures ok { OnOk result (option_map (λ k. k.0) kept.new ≡ Some (all_numbers pool.now leap_vars)) }
    ensures err { OnErr result (kept.new ≡ kept.old) }
    ensures fault { IfErr result (λ fault. LeapsGive pool.now (Err fault)) }
    ensures no_memory { AreKept (Keeps pool.now) (rules_of_all leap_vars)
        → option_map (λ k. k.0) kept.old ≡ Some (all_numbers pool.now leap_vars) → IsOk result }
{
    if let Some(fault) = first_refused(pool, &VARS) {
        return Err(fault);
    }
    if is_of(kept, pool) {
        return Ok(());
    }
    *kept = Some(make(alloc, pool)?);
    Ok(())
}

/// Whether a table is kept, and the loaded kernels give its numbers.
fn is_of(kept: &Option<KeptLeaps>, pool: &Pool) -> bool
    requires { AreKept (Keeps pool.now) (rules_of_all leap_vars) }
    ensures { IsTrue result ↔ (option_map (λ k. k.0) kept.now ≡ Some (all_numbers pool.now leap_vars)) }
{
    match kept {
        Some(kept) => kept.is_of(pool),
        None => false,
    }
}

/// The table of the loaded kernels.
fn make(alloc: Global, pool: &Pool) -> Result<KeptLeaps, TableFault>
    ensures ok { IfOk result (λ kept. kept.0 ≡ all_numbers pool.now leap_vars) }
    ensures err { IfErr result (λ fault. fault ≢ NoMemory → LeapsMade (numbers_of pool.now Leap) (Err fault)) }
{
    let numbers = read_numbers(alloc, pool, &VARS)?;
    let [delta_at] = numbers.as_slice() else {
        unreachable!()
    };
    let table = LeapTable::from_pairs(alloc, delta_at.as_slice())?;
    Ok(KeptLeaps { numbers, table })
}
