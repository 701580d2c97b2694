//! The clock of one id that the loaded kernels give, and its numbers.

ghost use Rattle.std.specs.Prelude.{◌≡◌, ◌≢◌, ◌↔◌, length, map, Ok, Err, Some, IfOk, IfErr, OnOk, OnErr, IsOk, IsTrue, option_map};
ghost use Rattle.st_rules.specs.Rules.{AreKept};
ghost use Rattle.st_ticks.specs.declared.variable.Var.TheVariants.{Clock as OfClock};
ghost use Rattle.st_tables.specs.Tables.{ClockGives, ClockMade};
ghost use Rattle.st_tables.specs.TablesMachine.{clock_numbers};
ghost use Rattle.st_tables.specs.ClockSteps.{by_var, ClockAnswers};
ghost use Rattle.st_ticks.specs.declared.variable.ClockVar.{ClockVar as OneVar};
ghost use Rattle.st_tables.specs.KeptSteps.{IsClock};
ghost use Rattle.st_tables.specs.Variables.{Keeps, all_numbers, clock_vars as vars_of, numbers_of, rules_of_all};
ghost use Rattle.st_tables.specs.declared.fault.TableFault.TheVariants.{OutOfMemory as NoMemory};

use crate::fault::TableFault;
use crate::kinds::first_refused;
use crate::numbers::{Numbers, are_given, read_numbers};
use st_clock::{Clock, check_system};
use st_decimal::{Dec, List};
use st_pool::Pool;
use st_ticks::{ClockVar, Face, Var};
use std::alloc::Global;
use std::marker::Model;

/// The clock of the id -n, and the numbers from which it was made.
#[derive(Debug, Drop)]
pub struct KeptClock {
    n: u32,
    numbers: Numbers,
    table: Clock,
}

impl Model for KeptClock {
    ghost use Rattle.std.specs.Prelude.{ℕ, List};
    ghost use Rattle.st_clock.specs.Clock.{Clock as SeenClock};
    ghost use Rattle.st_decimal.specs.declared.number.Dec.{Dec as Decimal};
    ghost use Rattle.st_tables.specs.KeptSteps.{IsClock};

    ghost Value = { (ℕ × List (List Decimal)) × SeenClock };

    ghost view = { λ k. ((k.n, k.numbers), k.table) };

    ghost invariant = { λ k. IsClock k.numbers k.table };
}

impl KeptClock {
    /// The clock.
    pub fn table(&self) -> &Clock
        ensures value { result.now ≡ self.now.1 }
        ensures made { IsClock self.now.0.1 self.now.1 }
    {
        &self.table
    }

    /// Whether it is the clock of this id, and the loaded kernels give the numbers from which it was made.
    fn is_of(&self, pool: &Pool, n: u32) -> bool
        requires { AreKept (Keeps pool.now) (rules_of_all (vars_of n)) }
        ensures { IsTrue result ↔ (self.now.0 ≡ (n, all_numbers pool.now (vars_of n))) }
    {
        self.n == n && are_given(pool, &clock_vars(n), self.numbers.as_slice())
    }
}

/// The variables of the clock of the id -n, in the order in which they are gone through.
fn clock_vars(n: u32) -> [Var; 9]
    ensures { result ≡ vars_of n }
{
    [
        var(ClockVar::DataType, n),
        var(ClockVar::TimeSystem, n),
        var(ClockVar::NFields, n),
        var(ClockVar::Moduli, n),
        var(ClockVar::Offsets, n),
        var(ClockVar::Delim, n),
        var(ClockVar::Start, n),
        var(ClockVar::End, n),
        var(ClockVar::Coefficients, n),
    ]
}

fn var(var: ClockVar, n: u32) -> Var
    ensures { result ≡ OfClock var n }
{
    Var::Clock { var, n }
}

/// Keeps the clock of the loaded kernels and the id -n, in place of one of other numbers or of another id.
pub fn keep(
    alloc: Global,
    kept: &mut Option<KeptClock>,
    pool: &Pool,
    n: u32,
) -> Result<(), TableFault>
    ensures kinds { OnOk result (AreKept (Keeps pool.now) (rules_of_all (vars_of n))) }
    ensures ok { OnOk result (option_map (λ k. k.0) kept.new ≡ Some (n, all_numbers pool.now (vars_of n))) }
    ensures err { OnErr result (kept.new ≡ kept.old) }
    ensures fault { IfErr result (λ fault. ClockGives n pool.now (Err fault)) }
    ensures no_memory { AreKept (Keeps pool.now) (rules_of_all (vars_of n))
        → option_map (λ k. k.0) kept.old ≡ Some (n, all_numbers pool.now (vars_of n)) → IsOk result }
{
    if let Some(fault) = first_refused(pool, &clock_vars(n)) {
        return Err(fault);
    }
    if is_of(kept, pool, n) {
        return Ok(());
    }
    *kept = Some(make(alloc, pool, n)?);
    Ok(())
}

/// Whether the clock of the id is kept, and the loaded kernels give its numbers.
fn is_of(kept: &Option<KeptClock>, pool: &Pool, n: u32) -> bool
    requires { AreKept (Keeps pool.now) (rules_of_all (vars_of n)) }
    ensures { IsTrue result ↔ (option_map (λ k. k.0) kept.now ≡ Some (n, all_numbers pool.now (vars_of n))) }
{
    match kept {
        Some(kept) => kept.is_of(pool, n),
        None => false,
    }
}

/// The clock of the loaded kernels.
fn make(alloc: Global, pool: &Pool, n: u32) -> Result<KeptClock, TableFault>
    ensures ok { IfOk result (λ kept. kept.0 ≡ (n, all_numbers pool.now (vars_of n))) }
    ensures err { IfErr result (λ fault. fault ≢ NoMemory → ClockMade (λ v. numbers_of pool.now (OfClock v n)) (Err fault)) }
{
    let numbers = read_numbers(alloc, pool, &clock_vars(n))?;
    let table = clock_of(alloc, numbers.as_slice())?;
    Ok(KeptClock { n, numbers, table })
}

/// The clock that the numbers of its nine variables describe.
fn clock_of(alloc: Global, numbers: &[List<Dec>]) -> Result<Clock, TableFault>
    requires { length numbers.now ≡ 9 }
    ensures { ClockAnswers (clock_numbers numbers.now) result }
{
    let lists = lists_of(numbers);
    clock_by(alloc, &lists)
}

/// The numbers of each of a clock's variables.
#[derive(Clone, Copy)]
struct ClockLists<'a> {
    data_type: &'a [Dec],
    time_system: &'a [Dec],
    n_fields: &'a [Dec],
    moduli: &'a [Dec],
    offsets: &'a [Dec],
    delim: &'a [Dec],
    starts: &'a [Dec],
    ends: &'a [Dec],
    coefficients: &'a [Dec],
}

/// The numbers of each variable, which stand in the order of the variables.
fn lists_of(numbers: &[List<Dec>]) -> ClockLists
    requires { length numbers.now ≡ 9 }
    ensures { (v : OneVar) → by_var result v ≡ clock_numbers numbers.now v }
{
    ClockLists {
        data_type: numbers[0].as_slice(),
        time_system: numbers[1].as_slice(),
        n_fields: numbers[2].as_slice(),
        moduli: numbers[3].as_slice(),
        offsets: numbers[4].as_slice(),
        delim: numbers[5].as_slice(),
        starts: numbers[6].as_slice(),
        ends: numbers[7].as_slice(),
        coefficients: numbers[8].as_slice(),
    }
}

/// The clock. The faults of the data type and the time system come before those of the face.
fn clock_by(alloc: Global, lists: &ClockLists) -> Result<Clock, TableFault>
    ensures { ClockAnswers (by_var lists.now) result }
{
    check_system(lists.data_type, lists.time_system)?;
    let face = Face::from_parts(
        alloc,
        lists.n_fields,
        lists.moduli,
        lists.offsets,
        lists.delim,
        lists.starts,
        lists.ends,
    )?;
    let clock = Clock::from_parts(
        alloc,
        face,
        lists.data_type,
        lists.time_system,
        lists.coefficients,
    )?;
    Ok(clock)
}
