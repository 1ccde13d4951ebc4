ghost use Rattle.std.specs.Prelude.{◌≡◌, ◌<◌, ◌++◌, ◌∷◌, [], IfOk, length};

use body_replay::NoMemory;
use std::alloc::Global;
use std::marker::Model;

/// Items in order, with room for a fixed number, as the updates that nonblocking assignments queue (IEEE 1364-2001,
/// clause 9.2.2). Only `new` takes memory.
pub struct Queue<T> {
    items: Vec<T>,
    room: usize,
}

// Written out so that a crate which lets one go does not prove again how each of its parts is let go.
impl<T: Drop> Drop for Queue<T> {
    fn drop(self) {
        let Queue { items: _, room: _ } = self;
    }
}

impl<T> Model for Queue<T> {
    ghost use Rattle.std.specs.Prelude.{◌≤◌, vec_capacity};
    ghost use Rattle.value_store.specs.Queue.{Queue as QueueView};

    ghost Value = { QueueView T };

    ghost view = { λ q. record { items = q.items.items; room = q.room } };

    ghost invariant = { λ q. q.room ≤ vec_capacity q.items };
}

impl<T> Queue<T> {
    /// No items, with room for `room` items.
    pub fn new(alloc: Global, room: usize) -> Result<Self, NoMemory>
        ensures { IfOk result (λ queue. queue ≡ record { items = []; room = room }) }
    {
        let items = Vec::with_capacity(alloc, room)?;
        Ok(Queue { items, room })
    }

    /// Adds an item after the others.
    pub fn push(&mut self, item: T)
        requires { length self.old.items < self.old.room }
        ensures { self.new ≡ record self.old { items = self.old.items ++ item ∷ [] } }
    {
        self.items.push_reserved(item);
    }

    /// The items in order.
    pub fn as_slice(&self) -> &[T]
        ensures { result.now ≡ self.now.items }
    {
        self.items.as_slice()
    }

    /// Removes all items.
    pub fn clear(&mut self)
    where
        T: Drop,
        ensures { self.new ≡ record self.old { items = [] } }
    {
        self.items.clear();
    }
}
