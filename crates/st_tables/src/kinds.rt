//! Whether the variables of a table are there, and hold numbers.

ghost use Rattle.std.specs.Prelude.{◌≡◌, [], ◌∷◌, MatchOption};
ghost use Rattle.st_rules.specs.Rules.{AreKept, IsFirstBroken};
ghost use Rattle.st_tables.specs.declared.fault.TableFault.TheVariants.{NoVariable, WrongKind};
ghost use Rattle.st_tables.specs.Variables.{Keeps, rules_of, rules_of_all};

use crate::fault::TableFault;
use crate::name::name_of;
use st_pool::{Kind, Pool};
use st_ticks::{ClockVar, Var};

/// The first of the variables, in their order, that is absent or holds a text.
pub fn first_refused(pool: &Pool, vars: &[Var]) -> Option<TableFault>
    ensures { MatchOption result (AreKept (Keeps pool.now) (rules_of_all vars.now))
        (IsFirstBroken (Keeps pool.now) (rules_of_all vars.now)) }
{
    for var in vars {
        if let Some(fault) = refusal(pool, *var) {
            return Some(fault);
        }
    }
    None
}

/// Why a variable has no numbers.
fn refusal(pool: &Pool, var: Var) -> Option<TableFault>
    ensures { MatchOption result (AreKept (Keeps pool.now) (rules_of var)) (IsFirstBroken (Keeps pool.now) (rules_of var)) }
{
    match pool.kind(name_of(var).as_str().as_bytes()) {
        Kind::Numbers => None,
        Kind::Absent => absence(var),
        Kind::Texts | Kind::Mixed => Some(TableFault::WrongKind(var)),
    }
}

/// The refusal of a variable that is absent. A clock's time system may be.
fn absence(var: Var) -> Option<TableFault>
    ensures { MatchOption result (rules_of var ≡ WrongKind var ∷ [])
        (λ fault. (rules_of var ≡ NoVariable var ∷ WrongKind var ∷ []) × (fault ≡ NoVariable var)) }
{
    match var {
        Var::Clock {
            var: ClockVar::TimeSystem,
            ..
        } => None,
        _ => Some(TableFault::NoVariable(var)),
    }
}
