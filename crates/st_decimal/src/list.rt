//! The list that the crates exchange, and its names: texts, lines of output and lists of names.

ghost use Rattle.std.specs.Prelude.{◌≡◌, ◌≤◌, ◌↔◌, ◌==◌, ◌-◌, [], ◌∷◌, ◌++◌, length, take, slice_get, IsNone, IfSome, Some, IfOk, OnOk, OnErr};

use crate::memory::OutOfMemory;
use std::alloc::Global;
use std::marker::Model;
use std::mem;

/// Items in order.
#[derive(Debug, Drop)]
pub struct List<T> {
    items: Vec<T>,
}

/// A text of a kernel, as bytes: the name of a variable or a file, or a string value.
pub type KText = List<u8>;

/// A line of output, as bytes, built piece by piece.
pub type Line = List<u8>;

/// Names in order.
pub type NameList = List<KText>;

impl<T> Model for List<T> {
    ghost use Rattle.std.specs.Prelude.{List as Items};

    ghost Value = { Items T };

    ghost view = { λ t. t.items.items };
}

impl<T: Drop> List<T> {
    /// The empty list, which keeps the allocator and allocates nothing.
    pub fn new(alloc: Global) -> Self
        ensures { result ≡ [] }
    {
        List {
            items: Vec::new(alloc),
        }
    }

    /// The items of a vector, which aren't copied.
    pub fn from_vec(items: Vec<T>) -> Self
        ensures { result ≡ items.items }
    {
        List { items }
    }

    /// The items as a vector, which aren't copied.
    pub fn into_vec(self) -> Vec<T>
        ensures { result.items ≡ self }
    {
        self.items
    }

    /// Appends one item, which is dropped where memory is refused.
    ///
    /// # Errors
    ///
    /// `OutOfMemory`, which leaves the list as it was.
    pub fn push(&mut self, item: T) -> Result<(), OutOfMemory>
        ensures ok { OnOk result (self.new ≡ self.old ++ item ∷ []) }
        ensures err { OnErr result (self.new ≡ self.old) }
    {
        self.items.push(item)?;
        Ok(())
    }

    /// How many items there are.
    pub fn len(&self) -> usize
        ensures { result ≡ length self.now }
    {
        self.items.len()
    }

    /// Whether there are no items.
    pub fn is_empty(&self) -> bool
        ensures { result ≡ (length self.now == 0) }
    {
        self.items.is_empty()
    }

    /// The item at a place, which is none from the length on.
    pub fn get(&self, i: usize) -> Option<&T>
        ensures none { IsNone result ↔ (length self.now ≤ i) }
        ensures some { IfSome result (λ item. slice_get self.now i ≡ Some item.now) }
    {
        self.items.get(i)
    }

    /// All items, in order.
    pub fn as_slice(&self) -> &[T]
        ensures { result.now ≡ self.now }
    {
        self.items.as_slice()
    }

    /// Removes the last item, where there is one.
    pub fn pop(&mut self)
        ensures { self.new ≡ take (length self.old - 1) self.old }
    {
        let _ = self.items.pop();
    }

    /// Removes all items.
    pub fn clear(&mut self)
        ensures { self.new ≡ [] }
    {
        self.items.clear();
    }

    /// All that the list holds. It is empty then, and keeps the allocator.
    pub fn take(&mut self) -> Self
        ensures taken { result ≡ self.old }
        ensures empty { self.new ≡ [] }
    {
        let alloc = *self.items.allocator();
        List {
            items: mem::replace(&mut self.items, Vec::new(alloc)),
        }
    }
}

impl List<u8> {
    /// A copy of some bytes.
    ///
    /// # Errors
    ///
    /// `OutOfMemory`.
    pub fn from_slice(alloc: Global, bytes: &[u8]) -> Result<Self, OutOfMemory>
        ensures { IfOk result (λ list. list ≡ bytes.now) }
    {
        let items = Vec::from_slice(alloc, bytes)?;
        Ok(List { items })
    }

    /// Appends some bytes, all of them or none.
    ///
    /// # Errors
    ///
    /// `OutOfMemory`, which leaves the list as it was.
    pub fn extend_from_slice(&mut self, bytes: &[u8]) -> Result<(), OutOfMemory>
        ensures ok { OnOk result (self.new ≡ self.old ++ bytes.now) }
        ensures err { OnErr result (self.new ≡ self.old) }
    {
        self.items.extend_from_slice(bytes)
    }
}

#[cfg(test)]
mod tests {
    use super::*;
    use std::test::Fail;

    #[test]
    fn keeps_bytes(rt: HostRuntime) -> Result<(), Fail> {
        let mut list = KText::new(rt.alloc());
        assert!(rt; list.is_empty());
        list.push(b'a')?;
        list.extend_from_slice(b"bcd")?;
        list.pop();
        assert_eq!(rt; list.as_slice(), b"abc".as_slice());
        assert_eq!(rt; list.len(), 3);
        assert_eq!(rt; list.get(2).copied(), Some(b'c'));
        assert!(rt; list.get(3).is_none());
        let taken = list.take();
        assert_eq!(rt; taken.as_slice(), b"abc".as_slice());
        assert!(rt; list.is_empty());
        list.push(b'x')?;
        list.clear();
        assert_eq!(rt; list.len(), 0);
        let copied = Line::from_slice(rt.alloc(), b"xy")?;
        assert_eq!(rt; copied.as_slice(), b"xy".as_slice());
        assert_eq!(rt; copied.into_vec().as_slice(), b"xy".as_slice());
        let mut bytes = Vec::new(rt.alloc());
        bytes.push(b'z')?;
        assert_eq!(rt; Line::from_vec(bytes).as_slice(), b"z".as_slice());
        Ok(())
    }

    #[test]
    fn keeps_names(rt: HostRuntime) -> Result<(), Fail> {
        let mut list = NameList::new(rt.alloc());
        list.push(KText::from_slice(rt.alloc(), b"one")?)?;
        list.push(KText::from_slice(rt.alloc(), b"two")?)?;
        assert_eq!(rt; list.len(), 2);
        assert_eq!(rt; list.get(1).map(|name| name.len()), Some(3));
        assert!(rt; list.get(2).is_none());
        Ok(())
    }
}
