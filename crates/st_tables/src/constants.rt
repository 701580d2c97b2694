//! The constants of the scales that the loaded kernels give, and their numbers.

ghost use Rattle.std.specs.Prelude.{◌≡◌, ◌≢◌, length, Ok, Err, Some, IfOk, IfErr, OnOk, OnErr, IsOk, IsTrue, ◌↔◌, option_map};
ghost use Rattle.st_scales.specs.Constants.{GiveConstants};
ghost use Rattle.st_rules.specs.Rules.{AreKept};
ghost use Rattle.st_ticks.specs.declared.variable.Var.TheVariants.{DeltaTa as OfTt, K as OfK, Eb as OfEb, M as OfM};
ghost use Rattle.st_tables.specs.Tables.{ConstantsGive, ConstantsMade};
ghost use Rattle.st_tables.specs.KeptSteps.{AreConstants};
ghost use Rattle.st_tables.specs.TablesMachine.{list_at};
ghost use Rattle.st_tables.specs.Variables.{Keeps, all_numbers, constant_vars, numbers_of, rules_of_all};
ghost use Rattle.st_tables.specs.declared.fault.TableFault.TheVariants.{OutOfMemory as NoMemory};

use crate::fault::TableFault;
use crate::kinds::first_refused;
use crate::numbers::{Numbers, are_given, read_numbers};
use st_decimal::{Dec, List};
use st_pool::Pool;
use st_scales::{Deltet, DeltetFault};
use st_ticks::Var;
use std::alloc::Global;
use std::marker::Model;

/// The variables of the constants.
const VARS: [Var; 4] = [Var::DeltaTa, Var::K, Var::Eb, Var::M];

/// The constants, and the numbers from which they were made.
#[derive(Debug, Drop)]
pub struct KeptConstants {
    numbers: Numbers,
    table: Deltet,
}

impl Model for KeptConstants {
    ghost use Rattle.std.specs.Prelude.{List};
    ghost use Rattle.st_decimal.specs.declared.number.Dec.{Dec as Decimal};
    ghost use Rattle.st_scales.specs.declared.deltet.Deltet.{Deltet as Constants};
    ghost use Rattle.st_tables.specs.KeptSteps.{AreConstants};

    ghost Value = { List (List Decimal) × Constants };

    ghost view = { λ k. (k.numbers, k.table) };

    ghost invariant = { λ k. AreConstants k.numbers k.table };
}

impl KeptConstants {
    /// The constants.
    pub fn table(&self) -> &Deltet
        ensures value { result.now ≡ self.now.1 }
        ensures made { AreConstants self.now.0 self.now.1 }
    {
        &self.table
    }

    /// Whether the loaded kernels give the numbers from which the constants were made.
    fn is_of(&self, pool: &Pool) -> bool
        requires { AreKept (Keeps pool.now) (rules_of_all constant_vars) }
        ensures { IsTrue result ↔ (self.now.0 ≡ all_numbers pool.now constant_vars) }
    {
        are_given(pool, &VARS, self.numbers.as_slice())
    }
}

/// Keeps the constants of the loaded kernels, in place of those of other numbers.
pub fn keep(alloc: Global, kept: &mut Option<KeptConstants>, pool: &Pool) -> Result<(), TableFault>
    ensures kinds { OnOk result (AreKept (Keeps pool.now) (rules_of_all constant_vars)) }
    ensures ok { OnOk result (option_map (λ k. k.0) kept.new ≡ Some (all_numbers pool.now constant_vars)) }
    ensures err { OnErr result (kept.new ≡ kept.old) }
    ensures fault { IfErr result (λ fault. ConstantsGive pool.now (Err fault)) }
    ensures no_memory { AreKept (Keeps pool.now) (rules_of_all constant_vars)
        → option_map (λ k. k.0) kept.old ≡ Some (all_numbers pool.now constant_vars) → IsOk result }
{
    if let Some(fault) = first_refused(pool, &VARS) {
        return Err(fault);
    }
    if is_of(kept, pool) {
        return Ok(());
    }
    *kept = Some(make(alloc, pool)?);
    Ok(())
}

/// Whether constants are kept, and the loaded kernels give their numbers.
fn is_of(kept: &Option<KeptConstants>, pool: &Pool) -> bool
    requires { AreKept (Keeps pool.now) (rules_of_all constant_vars) }
    ensures { IsTrue result ↔ (option_map (λ k. k.0) kept.now ≡ Some (all_numbers pool.now constant_vars)) }
{
    match kept {
        Some(kept) => kept.is_of(pool),
        None => false,
    }
}

/// The constants of the loaded kernels.
fn make(alloc: Global, pool: &Pool) -> Result<KeptConstants, TableFault>
    ensures ok { IfOk result (λ kept. kept.0 ≡ all_numbers pool.now constant_vars) }
    ensures err { IfErr result (λ fault. fault ≢ NoMemory → ConstantsMade (numbers_of pool.now OfTt) (numbers_of pool.now OfK) (numbers_of pool.now OfEb) (numbers_of pool.now OfM) (Err fault)) }
{
    let numbers = read_numbers(alloc, pool, &VARS)?;
    let table = constants_of(numbers.as_slice())?;
    Ok(KeptConstants { numbers, table })
}

/// The constants that the numbers of their four variables spell.
fn constants_of(numbers: &[List<Dec>]) -> Result<Deltet, DeltetFault>
    requires { length numbers.now ≡ 4 }
    ensures { GiveConstants (list_at numbers.now 0) (list_at numbers.now 1) (list_at numbers.now 2) (list_at numbers.now 3) result }
{
    Deltet::from_numbers(
        numbers[0].as_slice(),
        numbers[1].as_slice(),
        numbers[2].as_slice(),
        numbers[3].as_slice(),
    )
}
