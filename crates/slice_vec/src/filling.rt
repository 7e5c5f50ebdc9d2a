// Filling a list, item by item.
ghost use Rattle.std.specs.Prelude.{◌≡◌, ◌+◌, ◌++◌, if◌then◌else◌, [], length, not, is_ok, nat_le};
ghost use Rattle.slice_vec.specs.Filling.{storage_of, items_of, capacity_of, is_full, with_item, Behind};

use crate::vec::{Full, SliceVec};

impl<'a, T: Drop> SliceVec<'a, T> {
    /// An empty list in some storage.
    pub fn new(storage: &'a mut [T]) -> SliceVec<'a, T>
        ensures items { items_of result ≡ [] }
        ensures storage { storage_of result ≡ storage.entry }
    {
        SliceVec { storage, filled: 0 }
    }

    /// How many items there are.
    pub fn len(&self) -> usize
        ensures { result ≡ length (items_of self.now) }
    {
        self.filled
    }

    /// How many items the storage has room for.
    pub fn capacity(&self) -> usize
        ensures { result ≡ capacity_of self.now }
    {
        self.storage.len()
    }

    /// Whether there is no room for one item more.
    pub fn is_full(&self) -> bool
        ensures { result ≡ is_full self.now }
    {
        self.filled >= self.storage.len()
    }

    /// The items, from the first listed to the last.
    pub fn as_slice(&self) -> &[T]
        ensures { result.now ≡ items_of self.now }
    {
        &self.storage[..self.filled]
    }

    /// One item more, unless the list is full.
    pub fn push(&mut self, item: T) -> Result<(), Full>
        ensures result { is_ok result ≡ not (is_full self.old) }
        ensures items { items_of self.new ≡ with_item (is_full self.old) (items_of self.old) item }
        ensures behind { Behind self.old self.new }
    {
        let place = self.filled;
        if place >= self.storage.len() {
            return Err(Full);
        }
        self.storage[place] = item;
        self.filled = place + 1;
        Ok(())
    }

    /// Empties the list. The items stay in the storage, where they now lie behind it.
    pub fn clear(&mut self)
        ensures items { items_of self.new ≡ [] }
        ensures storage { storage_of self.new ≡ storage_of self.old }
    {
        self.filled = 0;
    }

    /// Gives the storage back.
    pub fn into_inner(self) -> &'a mut [T]
        ensures { result ≡ storage_of self.entry }
    {
        let SliceVec { storage, .. } = self;
        storage
    }
}

impl<'a, T: Copy> SliceVec<'a, T> {
    /// Several items more, or none of them where they do not all fit.
    pub fn extend_from_slice(&mut self, items: &[T]) -> Result<(), Full>
        ensures result { is_ok result ≡ nat_le (length (items_of self.old) + length items.now) (capacity_of self.old) }
        ensures items { items_of self.new ≡
            (if is_ok result then items_of self.old ++ items.now else items_of self.old) }
        ensures behind { Behind self.old self.new }
    {
        let place = self.filled;
        if self.storage.len() - place < items.len() {
            return Err(Full);
        }
        self.storage[place..place + items.len()].copy_from_slice(items);
        self.filled = place + items.len();
        Ok(())
    }
}
