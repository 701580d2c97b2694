//! The numbers that the loaded kernels give variables.

ghost use Rattle.std.specs.Prelude.{◌≡◌, ◌↔◌, [], ◌∷◌, ◌++◌, IfOk, OnOk, IsTrue, Some, length, map, option_copied};
ghost use Rattle.st_kernel_text.specs.declared.value.Value.TheVariants.{Number as OneNumber};
ghost use Rattle.st_pool.specs.Variable.{loaded_values};
ghost use Rattle.st_rules.specs.Rules.{AreKept};
ghost use Rattle.st_tables.specs.Names.{var_name};
ghost use Rattle.st_tables.specs.Variables.{Keeps, all_numbers, numbers_in, numbers_of as given_numbers, rules_of_all};

use crate::name::name_of;
use st_decimal::{Dec, List, OutOfMemory};
use st_kernel_text::Value;
use st_pool::Pool;
use st_ticks::Var;
use std::alloc::Global;

/// The numbers of each of a table's variables, in the order of the variables.
pub type Numbers = List<List<Dec>>;

/// The numbers of some variables.
pub fn read_numbers(alloc: Global, pool: &Pool, vars: &[Var]) -> Result<Numbers, OutOfMemory>
    ensures { IfOk result (λ numbers. numbers ≡ all_numbers pool.now vars.now) }
{
    let mut numbers = Numbers::new(alloc);
    for var in vars {
        numbers.push(numbers_of(alloc, pool, *var)?)?;
    }
    Ok(numbers)
}

/// The numbers among the values of a variable.
fn numbers_of(alloc: Global, pool: &Pool, var: Var) -> Result<List<Dec>, OutOfMemory>
    ensures { IfOk result (λ list. list ≡ given_numbers pool.now var) }
{
    let name = name_of(var);
    let name = name.as_str().as_bytes();
    let mut list = List::new(alloc);
    for value in pool.values(name) {
        add(&mut list, value)?;
    }
    Ok(list)
}

/// Adds what a value is, where it is a number.
fn add(list: &mut List<Dec>, value: &Value) -> Result<(), OutOfMemory>
    ensures { OnOk result (list.new ≡ list.old ++ numbers_in (value.now ∷ [])) }
{
    match value {
        Value::Number(number) => list.push(*number),
        Value::Text(_) => Ok(()),
    }
}

/// Whether the loaded kernels give some variables, none of which holds a text, these numbers. It takes no memory.
pub fn are_given(pool: &Pool, vars: &[Var], numbers: &[List<Dec>]) -> bool
    requires kinds { AreKept (Keeps pool.now) (rules_of_all vars.now) }
    requires lists { length numbers.now ≡ length vars.now }
    ensures { IsTrue result ↔ (numbers.now ≡ all_numbers pool.now vars.now) }
{
    for (i, var) in vars.iter().enumerate() {
        if !are_values(pool, *var, numbers[i].as_slice()) {
            return false;
        }
    }
    true
}

/// Whether the values of a variable are these numbers.
fn are_values(pool: &Pool, var: Var, numbers: &[Dec]) -> bool
    ensures { IsTrue result ↔ (loaded_values (var_name var) pool.now ≡ map OneNumber numbers.now) }
{
    let name = name_of(var);
    let name = name.as_str().as_bytes();
    let mut values = pool.values(name);
    for number in numbers {
        if !is_number(values.next(), *number) {
            return false;
        }
    }
    values.next().is_none()
}

/// Whether a value is this number.
fn is_number(value: Option<&Value>, number: Dec) -> bool
    ensures { IsTrue result ↔ (option_copied value.entry ≡ Some (OneNumber number)) }
{
    match value {
        Some(Value::Number(found)) => *found == number,
        _ => false,
    }
}
