//! The kinds of a variable's values, found by going over the places of its assignments.

ghost use Rattle.std.specs.Prelude.{◌≡◌};
ghost use Rattle.std.specs.List.{list_any};
ghost use Rattle.st_pool.specs.IndexMachine.{assignments_at};
ghost use Rattle.st_pool.specs.Variable.{is_number, is_text};
ghost use Rattle.st_pool.specs.PoolMachine as machine;

use crate::kernel::Kernel;
use crate::kind::Kind;
use crate::place::Place;
use crate::values::assignment_at;
use st_kernel_text::{Assignment, Mode, Value};

/// What is known of a variable by the assignments so far.
#[derive(Clone, Copy, Debug)]
pub struct Kinds {
    /// Whether it has an assignment.
    pub present: bool,
    /// Whether some of its values are numbers.
    pub numbers: bool,
    /// Whether some of its values are strings.
    pub texts: bool,
}

/// Of which kind the values are that the assignments at these places give their variable.
pub fn kind_of(kernels: &[Kernel], places: &[Place]) -> Kind
    ensures { result ≡ machine.kind_at (assignments_at kernels.now places.now) }
{
    let mut kinds = Kinds {
        present: false,
        numbers: false,
        texts: false,
    };
    for place in places {
        if let Some(assignment) = assignment_at(kernels, *place) {
            kinds = kinds_after(kinds, assignment);
        }
    }
    kind_by(kinds)
}

/// The kind by what is known of the values.
fn kind_by(kinds: Kinds) -> Kind
    ensures { result ≡ machine.kind_by kinds }
{
    if !kinds.present {
        return Kind::Absent;
    }
    if !kinds.texts {
        return Kind::Numbers;
    }
    if kinds.numbers {
        Kind::Mixed
    } else {
        Kind::Texts
    }
}

/// What is known after one more assignment.
fn kinds_after(before: Kinds, assignment: &Assignment) -> Kinds
    ensures { result ≡ machine.kinds_after before assignment.now }
{
    let numbers = has_number(assignment.values.as_slice());
    let texts = has_text(assignment.values.as_slice());
    if assignment.mode == Mode::Set {
        return Kinds {
            present: true,
            numbers,
            texts,
        };
    }
    Kinds {
        present: true,
        numbers: before.numbers || numbers,
        texts: before.texts || texts,
    }
}

fn has_number(values: &[Value]) -> bool
    ensures { result ≡ list_any is_number values.now }
{
    values.iter().any(|value| matches!(value, Value::Number(_)))
}

fn has_text(values: &[Value]) -> bool
    ensures { result ≡ list_any is_text values.now }
{
    values.iter().any(|value| matches!(value, Value::Text(_)))
}
