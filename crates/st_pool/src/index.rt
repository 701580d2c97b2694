//! The index of the loaded assignments by the names of their variables.

ghost use Rattle.std.specs.Prelude.{◌≡◌, ℕ, List, [], ◌∷◌, ◌++◌, false, bytes_eq, map, OnOk, OnErr};
ghost use Rattle.st_pool.specs.Places.{places_in};
ghost use Rattle.st_pool.specs.IndexMachine.{kept_places, without};
ghost use Rattle.st_pool.specs.IndexMachine as machine;

use crate::place::Place;
use indexmap::IndexMap;
use st_decimal::OutOfMemory;
use st_kernel_text::Assignment;
use std::alloc::{AllocError, Global};

/// The places of the assignments of each variable, in order, found by the hash of its name. A name
/// may stand here with no place, once its assignments have gone.
#[derive(Debug, Drop)]
pub struct Index {
    lists: IndexMap<Vec<u8>, Vec<Place>>,
}

impl Index {
    /// An index with no name in it.
    pub fn new(alloc: Global) -> Index
        ensures { (name : List ℕ) → kept_places name result.lists ≡ [] }
    {
        Index {
            lists: IndexMap::new(alloc),
        }
    }

    /// The places of the variable of this name.
    pub fn places(&self, name: &[u8]) -> &[Place]
        ensures { result.now ≡ kept_places name.now self.now.lists }
    {
        match self.lists.get(name) {
            Some(places) => places.as_slice(),
            None => &[],
        }
    }

    /// Adds the assignments of the kernel with this number, after all others. Where memory is
    /// refused, some of them may be added.
    pub fn add(
        &mut self,
        alloc: Global,
        kernel: u32,
        assignments: &[Assignment],
    ) -> Result<(), OutOfMemory>
        ensures added { OnOk result ((name : List ℕ) → kept_places name self.new.lists
            ≡ kept_places name self.old.lists ++ places_in name kernel assignments.now) }
        ensures refused { OnErr result ((name : List ℕ) → without kernel (kept_places name self.new.lists)
            ≡ without kernel (kept_places name self.old.lists)) }
    {
        // A place numbers its assignment in 32 bits.
        if assignments.len() > u32::MAX as usize {
            return Err(AllocError);
        }
        for (i, assignment) in assignments.iter().enumerate() {
            let place = Place {
                kernel,
                assignment: i as u32,
            };
            add_place(&mut self.lists, alloc, assignment.name.as_slice(), place)?;
        }
        Ok(())
    }

    /// Takes out the assignments of the kernel with this number. The later kernels are counted one
    /// lower.
    pub fn take_out(&mut self, kernel: u32)
        ensures { (name : List ℕ) → kept_places name self.new.lists ≡ without kernel (kept_places name self.old.lists) }
    {
        for i in 0..self.lists.len() {
            take_out_of(&mut self.lists[i], kernel);
        }
    }

    /// Takes out all assignments.
    pub fn clear(&mut self)
        ensures { (name : List ℕ) → kept_places name self.new.lists ≡ [] }
    {
        self.lists.clear();
    }
}

/// Adds a place after those of the name.
fn add_place(
    index: &mut IndexMap<Vec<u8>, Vec<Place>>,
    alloc: Global,
    name: &[u8],
    place: Place,
) -> Result<(), OutOfMemory>
    ensures added { OnOk result (kept_places name.now index.new ≡ kept_places name.now index.old ++ place ∷ []) }
    ensures others { (q : List ℕ) → bytes_eq name.now q ≡ false → kept_places q index.new ≡ kept_places q index.old }
    ensures refused { OnErr result ((q : List ℕ) → kept_places q index.new ≡ kept_places q index.old) }
{
    if let Some(places) = index.get_mut(name) {
        places.push(place)?;
        return Ok(());
    }
    let mut places = Vec::with_capacity(alloc, 1)?;
    places.push(place)?;
    let name = Vec::from_slice(alloc, name)?;
    index.insert(name, places)?;
    Ok(())
}

/// Takes the places of the kernel with this number out of these. The later kernels are counted one
/// lower.
fn take_out_of(places: &mut Vec<Place>, kernel: u32)
    ensures { places.new.items ≡ without kernel places.old.items }
{
    places.retain(|place| place.kernel != kernel);
    lower_behind(places.as_mut_slice(), kernel);
}

/// Counts the kernels after the one with this number one lower.
fn lower_behind(places: &mut [Place], kernel: u32)
    ensures { places.new ≡ map (machine.lowered kernel) places.old }
{
    for place in places.iter_mut() {
        *place = lowered(*place, kernel);
    }
}

/// The place once the kernel with this number is unloaded.
fn lowered(place: Place, kernel: u32) -> Place
    ensures { result ≡ machine.lowered kernel place }
{
    if place.kernel <= kernel {
        return place;
    }
    Place {
        kernel: place.kernel - 1,
        assignment: place.assignment,
    }
}
