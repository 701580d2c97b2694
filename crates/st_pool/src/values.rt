//! The values of a variable, lent one after the other.

ghost use Rattle.std.specs.Prelude.{◌≡◌, ◌≤◌, ◌++◌, [], drop, length, option_copied};
ghost use Rattle.st_pool.specs.IndexMachine.{assignment_at as at_place, assignments_at};
ghost use Rattle.st_pool.specs.PoolMachine.{is_set_at, values_at as values_at_place, values_by, values_in};
ghost use Rattle.st_pool.specs.Variable.{since_last_set};

use crate::kernel::Kernel;
use crate::place::Place;
use st_kernel_text::{Assignment, Mode, Value};
use std::marker::Model;

/// The values of a variable in order, from [`Pool::values`](crate::Pool::values). Each assignment is gone over once.
#[derive(Debug, Drop)]
pub struct Values<'a> {
    kernels: &'a [Kernel],
    /// The places of the assignments after the one that is begun.
    places: &'a [Place],
    /// The values that are left of the assignment that is begun.
    begun: &'a [Value],
}

impl<'a> Model for Values<'a> {
    ghost use Rattle.std.specs.Prelude.{List, ◌++◌};
    ghost use Rattle.st_kernel_text.specs.declared.value.Value.{Value as Item};
    ghost use Rattle.st_pool.specs.PoolMachine.{values_in};

    ghost Value = { List Item };

    ghost view = { λ v. v.begun.now ++ values_in v.kernels.now v.places.now };
}

impl<'a> Values<'a> {
    /// The values that the assignments at these places give their variable.
    pub(crate) fn new(kernels: &'a [Kernel], places: &'a [Place]) -> Values<'a>
        ensures { result ≡ values_by (assignments_at kernels.now places.now) }
    {
        let start = last_set(kernels, places);
        Values {
            kernels,
            places: &places[start..],
            begun: &[],
        }
    }
}

impl<'a> Iterator for Values<'a> {
    ghost use Rattle.std.specs.Iterator.{YieldsFirstRef, item_count};

    type Item = &'a Value;

    ghost next_gives = { YieldsFirstRef (λ values. values) };

    ghost remaining = { item_count (λ values. values) };

    fn next(&mut self) -> Option<&'a Value> {
        if self.begun.is_empty() {
            let (begun, places) = next_values(self.kernels, self.places);
            self.begun = begun;
            self.places = places;
        }
        let (value, others) = self.begun.split_first()?;
        self.begun = others;
        Some(value)
    }
}

/// The number of the place of the last assignment that sets the values; 0 where none does.
fn last_set(kernels: &[Kernel], places: &[Place]) -> usize
    ensures within { result ≤ length places.now }
    ensures since { assignments_at kernels.now (drop result places.now) ≡ since_last_set (assignments_at kernels.now places.now) }
{
    let mut start = places.len();
    while start > 0 {
        start -= 1;
        if sets_at(kernels, places[start]) {
            return start;
        }
    }
    0
}

/// Whether the assignment at a place sets the values.
fn sets_at(kernels: &[Kernel], place: Place) -> bool
    ensures { result ≡ is_set_at kernels.now place }
{
    match assignment_at(kernels, place) {
        Some(assignment) => assignment.mode == Mode::Set,
        None => false,
    }
}

/// The values of the first of these places that has some, and the places after it.
fn next_values<'a>(kernels: &'a [Kernel], places: &'a [Place]) -> (&'a [Value], &'a [Place])
    ensures all { result.0.now ++ values_in kernels.now result.1.now ≡ values_in kernels.now places.now }
    ensures none { result.0.now ≡ [] → values_in kernels.now result.1.now ≡ [] }
{
    for (i, place) in places.iter().enumerate() {
        let values = values_at(kernels, *place);
        if !values.is_empty() {
            return (values, &places[i + 1..]);
        }
    }
    (&[], &[])
}

/// The values of the assignment at a place.
fn values_at(kernels: &[Kernel], place: Place) -> &[Value]
    ensures { result.now ≡ values_at_place kernels.now place }
{
    match assignment_at(kernels, place) {
        Some(assignment) => assignment.values.as_slice(),
        None => &[],
    }
}

/// The assignment at a place.
pub fn assignment_at(kernels: &[Kernel], place: Place) -> Option<&Assignment>
    ensures { option_copied result ≡ at_place kernels.now place }
{
    let kernel = kernels.get(place.kernel as usize)?;
    kernel.assignments.as_slice().get(place.assignment as usize)
}
