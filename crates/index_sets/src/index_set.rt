ghost use Rattle.std.specs.Prelude.{◌≡◌, ◌<◌, ◌≤◌, ◌↔◌, ◌++◌, ◌∷◌, [], ℕ, IfOk, IsFalse, IsTrue, if◌then◌else◌, length, slice_index, take};
ghost use Rattle.std.specs.List.{Contains};
ghost use Rattle.index_sets.specs.Members.{Members, IsIdentity};

use cov_host::NoMemory;
use std::alloc::Global;
use std::marker::Model;

/// A set of numbers below a size, which keeps the order in which they were put in. A look-up, an insertion and `clear`
/// take the same time whatever the size is, and no memory.
pub struct IndexSet {
    /// Each number below the size once: first the members, then the others.
    order: Vec<usize>,
    /// For each number its place in `order`.
    places: Vec<usize>,
    /// How many members there are.
    used: usize,
}

// Written out so that a crate which lets one go does not prove again how each of its parts is let go.
impl Drop for IndexSet {
    fn drop(self) {
        let IndexSet {
            order: _,
            places: _,
            used: _,
        } = self;
    }
}

impl Model for IndexSet {
    ghost use Rattle.std.specs.Prelude.{length, take};
    ghost use Rattle.index_sets.specs.Members.{Members, ArePlaces};

    ghost Value = { Members };

    ghost view = { λ s. record { size = length s.order.items; items = take s.used s.order.items } };

    ghost invariant = { λ s. ArePlaces s.order.items s.places.items s.used };
}

impl IndexSet {
    /// No members yet, of numbers below `size`.
    pub fn new(alloc: Global, size: usize) -> Result<Self, NoMemory>
        ensures size { IfOk result (λ set. set.size ≡ size) }
        ensures items { IfOk result (λ set. set.items ≡ []) }
    {
        let order = numbers_below(alloc, size)?;
        let places = numbers_below(alloc, size)?;
        Ok(IndexSet {
            order,
            places,
            used: 0,
        })
    }

    /// How many members there are.
    pub fn len(&self) -> usize
        ensures value { result ≡ length self.now.items }
        ensures within { result ≤ self.now.size }
    {
        self.used
    }

    /// The member at this place in the order in which members were put in, from 0.
    pub fn get(&self, place: usize) -> usize
        requires { place < length self.now.items }
        ensures value { result ≡ slice_index self.now.items place }
        ensures below { result < self.now.size }
    {
        self.order[place]
    }

    /// The members, in the order in which they were put in.
    pub fn as_slice(&self) -> &[usize]
        ensures { result.now ≡ self.now.items }
    {
        first(self.order.as_slice(), self.used)
    }

    /// Whether the number is a member.
    pub fn contains(&self, number: usize) -> bool
        requires { number < self.now.size }
        ensures { IsTrue result ↔ Contains self.now.items number }
    {
        self.places[number] < self.used
    }

    /// Puts a number in, after the other members, and says whether it was not yet one. It takes no memory.
    pub fn insert(&mut self, number: usize) -> bool
        requires { number < self.old.size }
        ensures there { IsFalse result ↔ Contains self.old.items number }
        ensures size { self.new.size ≡ self.old.size }
        ensures items { self.new.items ≡ (if result then self.old.items ++ number ∷ [] else self.old.items) }
    {
        let from = self.places[number];
        let to = self.used;
        if from < to {
            return false;
        }
        let other = self.order[to];
        self.order[to] = number;
        self.order[from] = other;
        self.places[number] = to;
        self.places[other] = from;
        self.used = to + 1;
        true
    }

    /// Takes all members out. It takes no memory, and the same time whatever the set holds.
    pub fn clear(&mut self)
        ensures size { self.new.size ≡ self.old.size }
        ensures items { self.new.items ≡ [] }
    {
        self.used = 0;
    }
}

/// The first `count` numbers of a list.
fn first(numbers: &[usize], count: usize) -> &[usize]
    requires { count ≤ length numbers.now }
    ensures { result.now ≡ take count numbers.now }
{
    &numbers[..count]
}

/// The numbers below a bound, in order.
fn numbers_below(alloc: Global, bound: usize) -> Result<Vec<usize>, NoMemory>
    ensures { IfOk result (λ numbers. IsIdentity numbers.items bound) }
{
    let mut numbers = Vec::new(alloc);
    for number in 0..bound {
        numbers.push(number)?;
    }
    Ok(numbers)
}
