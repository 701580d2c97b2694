//! Files in memory, by their names.

ghost use Rattle.std.specs.Prelude.{◌≡◌, [], None, Some, OnOk, OnErr, MatchOption, bytes_eq, position};
ghost use Rattle.st_outside.specs.Entries.{Puts, HasDistinctNames, bytes_of, bytes_at};

use crate::bytes::Bytes;
use crate::faults::OutOfMemory;
use std::alloc::Global;
use std::marker::Model;

/// A map from names to bytes; no name stands in it twice.
#[derive(Debug, Drop)]
pub struct FileMap {
    entries: Vec<(Bytes, Bytes)>,
}

impl Model for FileMap {
    ghost use Rattle.st_outside.specs.Entries.{Entries, HasDistinctNames};

    ghost Value = { Entries };

    ghost view = { λ m. m.entries.items };

    ghost invariant = { λ m. HasDistinctNames m.entries.items };
}

impl FileMap {
    /// A map with no file in it, which will take its memory from `alloc`.
    pub fn new(alloc: Global) -> FileMap
        ensures { result ≡ [] }
    {
        FileMap {
            entries: Vec::new(alloc),
        }
    }

    /// Puts the bytes under the name, in place of those that stood there.
    ///
    /// # Errors
    ///
    /// [`OutOfMemory`]; the map is then as before.
    pub fn put(&mut self, name: &[u8], bytes: Vec<u8>) -> Result<(), OutOfMemory>
        ensures ok { OnOk result (Puts self.old name.now bytes.items self.new) }
        ensures err { OnErr result (self.new ≡ self.old) }
    {
        put_entry(&mut self.entries, name, bytes)
    }

    /// Where the entry of this name stands, if the map has it.
    pub(crate) fn place_of(&self, name: &[u8]) -> Option<usize>
        ensures { MatchOption result (bytes_of name.now self.now ≡ None)
            (λ place. bytes_of name.now self.now ≡ Some (bytes_at self.now place)) }
    {
        find_place(self.entries.as_slice(), name)
    }

    /// The bytes of the entry at this place.
    pub(crate) fn bytes_at(&self, place: usize) -> &[u8]
        ensures { result.now ≡ bytes_at self.now place }
    {
        entry_bytes(self.entries.as_slice(), place)
    }
}

fn find_place(entries: &[(Bytes, Bytes)], name: &[u8]) -> Option<usize>
    ensures { result ≡ position (λ entry. bytes_eq entry.0 name.now) entries.now }
{
    entries.iter().position(|entry| entry.0.as_slice() == name)
}

fn entry_bytes(entries: &[(Bytes, Bytes)], place: usize) -> &[u8]
    ensures { result.now ≡ bytes_at entries.now place }
{
    match entries.get(place) {
        Some(entry) => entry.1.as_slice(),
        None => &[],
    }
}

fn put_entry(
    entries: &mut Vec<(Bytes, Bytes)>,
    name: &[u8],
    bytes: Vec<u8>,
) -> Result<(), OutOfMemory>
    ensures ok { OnOk result (Puts entries.old.items name.now bytes.items entries.new.items) }
    ensures err { OnErr result (entries.new.items ≡ entries.old.items) }
    ensures distinct { HasDistinctNames entries.old.items → HasDistinctNames entries.new.items }
{
    let bytes = Bytes::from_vec(bytes);
    match find_place(entries.as_slice(), name) {
        Some(place) => entries[place].1 = bytes,
        None => {
            let name = Bytes::from_slice(*entries.allocator(), name)?;
            entries.push((name, bytes))?;
        }
    }
    Ok(())
}
