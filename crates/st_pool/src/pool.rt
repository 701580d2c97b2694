//! The loaded kernels.

ghost use Rattle.std.specs.Prelude.{◌≡◌, ◌≤◌, ◌<◌, ◌+◌, ◌↔◌, ℕ, List, [], ◌∷◌, ◌++◌, Ok, Err, length, slice_get, IsNone, IfSome, IsErr, Some, true, false, OnOk, OnErr, option_copied};
ghost use Rattle.std.specs.List.{remove};
ghost use Rattle.st_pool.specs.Limits.{most_kernels, most_values};
ghost use Rattle.st_pool.specs.Loaded.{value_count, loaded_count, is_loaded, without_last};
ghost use Rattle.st_pool.specs.Variable.{loaded_values, loaded_kind};
ghost use Rattle.st_pool.specs.Places.{places_in, loaded_places};
ghost use Rattle.st_pool.specs.IndexMachine.{kept_places, without};
ghost use Rattle.st_pool.specs.declared.kind.Kind.TheVariants.{Absent};
ghost use Rattle.st_pool.specs.declared.fault.LoadFault.TheVariants.{TooManyKernels, TooManyValues};

use crate::counts::{room_after, value_count};
use crate::fault::{LoadFault, NotLoaded};
use crate::index::Index;
use crate::kernel::Kernel;
use crate::kind::Kind;
use crate::kinds::kind_of;
use crate::last::last_place;
use crate::place::Place;
use crate::values::Values;
use st_decimal::{KText, OutOfMemory};
use st_kernel_text::{AssignmentList, Value};
use std::alloc::Global;
use std::marker::Model;

/// The most kernels that may be loaded at a time.
const MAX_KERNELS: usize = 1_000;

/// The most values that the loaded kernels may have together.
const MAX_VALUES: usize = 2_000_000;

/// The loaded kernels in the order of their loading.
///
/// Source: NAIF's Kernel Required Reading.
#[derive(Debug, Drop)]
pub struct Pool {
    kernels: Vec<Kernel>,
    /// The places of the assignments of each variable.
    index: Index,
    /// How many more values may be loaded.
    room: usize,
}

impl Model for Pool {
    ghost use Rattle.std.specs.Prelude.{ℕ, List, length, ◌≡◌, ◌≤◌, ◌+◌};
    ghost use Rattle.st_pool.specs.declared.kernel.Kernel.{Kernel as Item};
    ghost use Rattle.st_pool.specs.IndexMachine.{kept_places};
    ghost use Rattle.st_pool.specs.Limits.{most_kernels, most_values};
    ghost use Rattle.st_pool.specs.Loaded.{loaded_count};
    ghost use Rattle.st_pool.specs.Places.{loaded_places};

    ghost Value = { List Item };

    ghost view = { λ p. p.kernels.items };

    ghost invariant = { λ p. (length p.kernels.items ≤ most_kernels)
        × (loaded_count p.kernels.items + p.room ≡ most_values)
        × ((name : List ℕ) → kept_places name p.index.lists ≡ loaded_places name p.kernels.items) };
}

impl Pool {
    /// A pool with no kernel in it, which will take its memory from `alloc`.
    pub fn new(alloc: Global) -> Pool
        ensures { result ≡ [] }
    {
        Pool {
            kernels: Vec::new(alloc),
            index: Index::new(alloc),
            room: MAX_VALUES,
        }
    }

    /// Loads a kernel after all others, also where one of its name is loaded already.
    ///
    /// # Errors
    ///
    /// [`LoadFault`]; the pool is then as before, and the assignments are dropped.
    pub fn load(&mut self, name: &[u8], assignments: AssignmentList) -> Result<(), LoadFault>
        ensures loaded { OnOk result
            (self.new ≡ self.old ++ record { name = name.now; assignments = assignments } ∷ []) }
        ensures refused { OnErr result (self.new ≡ self.old) }
        ensures too_many_kernels { result ≡ Err TooManyKernels ↔ most_kernels ≤ length self.old }
        ensures too_many_values { result ≡ Err TooManyValues
            ↔ ((length self.old < most_kernels)
            × (most_values < loaded_count self.old + value_count assignments)) }
    {
        if self.kernels.len() >= MAX_KERNELS {
            return Err(LoadFault::TooManyKernels);
        }
        let Some(room) = room_after(self.room, assignments.as_slice()) else {
            return Err(LoadFault::TooManyValues);
        };
        let number = self.kernels.len() as u32;
        if let Err(fault) = append(&mut self.kernels, &mut self.index, name, assignments) {
            self.index.take_out(number);
            return Err(fault.into());
        }
        self.room = room;
        Ok(())
    }

    /// Unloads the last loaded kernel of the name.
    ///
    /// # Errors
    ///
    /// [`NotLoaded`] where no kernel of the name is loaded; the pool is then as before.
    pub fn unload(&mut self, name: &[u8]) -> Result<(), NotLoaded>
        ensures unloaded { OnOk result (self.new ≡ without_last name.now self.old) }
        ensures refused { OnErr result (self.new ≡ self.old) }
        ensures not_loaded { IsErr result ↔ (is_loaded name.now self.old ≡ false) }
    {
        let Some(place) = last_place(self.kernels.as_slice(), name) else {
            return Err(NotLoaded);
        };
        self.remove_at(place);
        Ok(())
    }

    /// Takes the kernel at a place of the order of loading, from 0, out of the loaded list. The others stay in order.
    pub fn remove_at(&mut self, i: usize)
        requires { i < length self.old }
        ensures { self.new ≡ remove self.old i }
    {
        let kernel = self.kernels.remove(i);
        self.index.take_out(i as u32);
        self.room += value_count(kernel.assignments.as_slice());
    }

    /// Unloads all kernels.
    pub fn clear(&mut self)
        ensures { self.new ≡ [] }
    {
        self.kernels.clear();
        self.index.clear();
        self.room = MAX_VALUES;
    }

    /// How many kernels are loaded.
    pub fn len(&self) -> usize
        ensures { result ≡ length self.now }
    {
        self.kernels.len()
    }

    /// The name of the kernel at a place in the order of loading, from 0; none from the length on.
    pub fn name_at(&self, i: usize) -> Option<&[u8]>
        ensures none { IsNone result ↔ (length self.now ≤ i) }
        ensures some { IfSome result (λ name.
            IfSome (slice_get self.now i) (λ kernel. name.now ≡ kernel.name)) }
    {
        let kernel = self.kernels.get(i)?;
        Some(kernel.name.as_slice())
    }

    /// Of which kind the values of a variable are, or that it is absent.
    pub fn kind(&self, name: &[u8]) -> Kind
        ensures { result ≡ loaded_kind name.now self.now }
    {
        kind_of(self.kernels.as_slice(), self.index.places(name))
    }

    /// How many values a variable has, 0 where it is absent.
    pub fn count(&self, name: &[u8]) -> usize
        ensures { result ≡ length (loaded_values name.now self.now) }
    {
        self.values(name).count()
    }

    /// The value of a variable at a place, from 0; none from the count on.
    pub fn value(&self, name: &[u8], i: usize) -> Option<&Value>
        ensures value { option_copied result ≡ slice_get (loaded_values name.now self.now) i }
        ensures none { IsNone result ↔ (length (loaded_values name.now self.now) ≤ i) }
    {
        self.values(name).nth(i)
    }

    /// The values of a variable in order, in one walk over its assignments from the last `=` on.
    pub fn values(&self, name: &[u8]) -> Values
        ensures values { result ≡ loaded_values name.now self.now }
        ensures few { length result ≤ most_values }
    {
        Values::new(self.kernels.as_slice(), self.index.places(name))
    }

    /// The places of all assignments of a variable, in order, as a slice that the pool keeps. It is
    /// empty exactly where the variable is absent.
    pub fn places(&self, name: &[u8]) -> &[Place]
        ensures places { result.now ≡ loaded_places name.now self.now }
        ensures absent { result.now ≡ [] ↔ loaded_kind name.now self.now ≡ Absent }
    {
        self.index.places(name)
    }
}

/// Loads a kernel after the others. Where memory is refused, some of its assignments may stand in
/// the index.
fn append(
    kernels: &mut Vec<Kernel>,
    index: &mut Index,
    name: &[u8],
    assignments: AssignmentList,
) -> Result<(), OutOfMemory>
    requires { length kernels.old.items < most_kernels }
    ensures kernels { OnOk result (kernels.new.items
        ≡ kernels.old.items ++ record { name = name.now; assignments = assignments } ∷ []) }
    ensures index { OnOk result ((q : List ℕ) → kept_places q index.new.lists
        ≡ kept_places q index.old.lists ++ places_in q (length kernels.old.items) assignments) }
    ensures refused { OnErr result (kernels.new.items ≡ kernels.old.items) }
    ensures refused_index { OnErr result ((q : List ℕ) → without (length kernels.old.items) (kept_places q index.new.lists)
        ≡ without (length kernels.old.items) (kept_places q index.old.lists)) }
{
    let alloc = *kernels.allocator();
    let number = kernels.len() as u32;
    let name = KText::from_slice(alloc, name)?;
    index.add(alloc, number, assignments.as_slice())?;
    kernels.push(Kernel { name, assignments })?;
    Ok(())
}
