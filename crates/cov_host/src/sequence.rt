ghost use Rattle.std.specs.Prelude.{◌≡◌, ◌<◌, ◌↔◌, List, [], ◌∷◌, ◌++◌, length, slice_get, ◌==◌, IsSome, OnOk, OnErr};
ghost use Rattle.std.specs.Option.{option_copied};

use crate::NoMemory;
use std::alloc::Global;
use std::marker::Model;

/// A name: of a file, a module, an instance, a signal.
pub type Name = Sequence<u8>;

/// The bytes of a file.
pub type Bytes = Sequence<u8>;

/// The bytes of a text that the program writes.
pub type Text = Sequence<u8>;

/// Numbers of calls on a host, counted from 1.
pub type Calls = Sequence<u64>;

/// Items in order, which contracts see as a list. It keeps the allocator that it was made with.
pub struct Sequence<T> {
    items: Vec<T>,
}

// Written out so that a crate which lets one go does not prove again how each of its parts is let go.
impl<T: Drop> Drop for Sequence<T> {
    fn drop(self) {
        let Sequence { items: _ } = self;
    }
}

impl<T> Model for Sequence<T> {
    ghost Value = { List T };

    ghost view = { λ s. s.items.items };
}

impl<T> Sequence<T> {
    /// No items yet. It takes no memory.
    pub fn new(alloc: Global) -> Self
        ensures { result ≡ [] }
    {
        Sequence {
            items: Vec::new(alloc),
        }
    }

    /// The items of a vector. It takes no memory.
    pub fn from_vec(items: Vec<T>) -> Self
        ensures { result ≡ items.items }
    {
        Sequence { items }
    }

    /// The items as a vector. It takes no memory.
    pub fn into_vec(self) -> Vec<T>
        ensures { result.items ≡ self }
    {
        let Sequence { items } = self;
        items
    }

    /// How many items there are.
    pub fn len(&self) -> usize
        ensures { result ≡ length self.now }
    {
        self.items.len()
    }

    /// Whether there is no item.
    pub fn is_empty(&self) -> bool
        ensures { result ≡ (length self.now == 0) }
    {
        self.items.is_empty()
    }

    /// The item at a place, counted from 0.
    pub fn get(&self, place: usize) -> Option<&T>
        ensures value { option_copied result ≡ slice_get self.now place }
        ensures there { IsSome result ↔ (place < length self.now) }
    {
        self.items.get(place)
    }

    /// All items in order.
    pub fn as_slice(&self) -> &[T]
        ensures { result.now ≡ self.now }
    {
        self.items.as_slice()
    }

    /// Adds an item at the end. After a refusal nothing has changed.
    pub fn push(&mut self, item: T) -> Result<(), NoMemory>
    where
        T: Drop,
        ensures ok { OnOk result (self.new ≡ self.old ++ item ∷ []) }
        ensures err { OnErr result (self.new ≡ self.old) }
    {
        self.items.push(item)?;
        Ok(())
    }

    /// Adds copies of all items of a slice at the end. After a refusal nothing has changed.
    pub fn extend_from_slice(&mut self, items: &[T]) -> Result<(), NoMemory>
    where
        T: Copy,
        ensures ok { OnOk result (self.new ≡ self.old ++ items.now) }
        ensures err { OnErr result (self.new ≡ self.old) }
    {
        self.items.extend_from_slice(items)?;
        Ok(())
    }
}
