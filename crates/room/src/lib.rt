//! Lists in memory that is reserved once, so that no later call wants any.
#![tactic(auto)]

ghost use Rattle.std.specs.Prelude.{◌≡◌, ◌<◌, ◌≤◌, List, [], ◌∷◌, ◌++◌, length, replicate, IfOk, vec_capacity};
ghost use Rattle.std.specs.Borrow.{sem};

use std::alloc::{AllocError, Global};
use std::marker::Model;
use std::ops::{DerefSlice, DerefSliceMut};

/// A list of plain values, in memory for `N` of them.
#[derive(Drop)]
pub struct Room<T, const N: usize> {
    items: Vec<T>,
}

// Clauses see the items.
impl<T, const N: usize> Model for Room<T, N> {
    ghost Value = { List T };

    ghost view = { λ r. r.items.items };

    ghost invariant = { λ r. N ≤ vec_capacity r.items };
}

impl<T: Copy, const N: usize> Room<T, N> {
    /// An empty list; the only call that wants memory.
    pub fn reserve(heap: Global) -> Result<Room<T, N>, AllocError>
        ensures { IfOk result (λ r. r ≡ []) }
    {
        let items = Vec::with_capacity(heap, N)?;
        Ok(Room { items })
    }

    /// A list that has memory enough.
    pub fn from_vec(items: Vec<T>) -> Room<T, N>
        requires { N ≤ vec_capacity items }
        ensures { result ≡ items.items }
    {
        Room { items }
    }

    /// The list, with its memory.
    pub fn into_vec(self) -> Vec<T>
        ensures items { result.items ≡ self }
        ensures room { N ≤ vec_capacity result }
    {
        let Room { items } = self;
        items
    }

    /// How many items there are.
    pub fn len(&self) -> usize
        ensures { result ≡ length self.now }
    {
        self.items.len()
    }

    /// No items any more; the memory stays.
    pub fn clear(&mut self)
        ensures { self.new ≡ [] }
    {
        self.items.clear();
    }

    /// One item more, at the end.
    pub fn push(&mut self, item: T)
        requires { length self.old < N }
        ensures { self.new ≡ self.old ++ item ∷ [] }
    {
        self.items.push_reserved(item);
    }

    /// So many times one value, in place of what was there.
    pub fn fill(&mut self, count: usize, value: T)
        requires { count ≤ N }
        ensures { self.new ≡ replicate count value }
    {
        self.clear();
        // `Vec::resize` may want memory
        for _i in 0..count {
            self.push(value);
        }
    }
}

impl<T, const N: usize> DerefSlice for Room<T, N> {
    type Elem = T;

    ghost deref_gives = { λ r items. items ≡ r };

    fn deref(&self) -> &[T] {
        self.items.as_slice()
    }
}

impl<T, const N: usize> DerefSliceMut for Room<T, N> {
    ghost use Rattle.room.specs.Lent.{lent};

    fn deref_mut(&mut self) -> &mut [T]
        ensures* writes_back { sem 𝓛 (lent T.row N.row self.entry result) }
        ensures value { result.now ≡ self.old }
    {
        self.items.as_mut_slice()
    }
}

#[cfg(test)]
mod tests {
    use super::Room;
    use std::test::Fail;

    #[test]
    fn reserved_once_and_filled(rt: HostRuntime) -> Result<(), Fail> {
        let mut room: Room<u16, 3> = Room::reserve(rt.alloc())?;
        assert_eq!(rt; room.len(), 0);
        room.fill(2, 7);
        room.push(9);
        let items = room.into_vec();
        assert_eq!(rt; items.len(), 3);
        let again: Room<u16, 3> = Room::from_vec(items);
        assert_eq!(rt; again.len(), 3);
        assert_eq!(rt; again[2], 9);
        Ok(())
    }
}
