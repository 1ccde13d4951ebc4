ghost use Rattle.std.specs.Prelude.{◌≡◌, ◌+◌, ◌<◌, ◌≤◌, [], IfOk, length};
ghost use Rattle.std.specs.List.{All};
ghost use Rattle.body_store.specs.Made.{HasWordWidth};

use cov_host::NoMemory;
use design_model::Memory;
use index_sets::IndexSet;
use std::alloc::Global;
use word_log::Rebuilt;

/// Which memories are veiled, and what is kept of those. While a memory is veiled, what bodies read and write of it lies in
/// its own place.
#[derive(Drop)]
pub(crate) struct Veils {
    /// For each memory of the design the words that are kept of it while it is veiled.
    pub(crate) under: Vec<Rebuilt>,
    /// The places of the memories that are veiled.
    pub(crate) veiled: IndexSet,
}

impl Veils {
    ghost use Rattle.body_store.specs.Veils.{FitsVeils, is_veiled as has_veiled};

    /// None of these memories is veiled. They have the numbers from this one up.
    pub(crate) fn new(alloc: Global, memories: &[Memory], first: u32) -> Result<Self, NoMemory>
        requires widths { All HasWordWidth memories.now }
        requires few { first + length memories.now ≤ 4294967295 }
        ensures none { IfOk result (λ made. made.veiled.items ≡ []) }
        ensures fits { IfOk result (λ made. FitsVeils first memories.now made) }
    {
        let mut under = Vec::with_capacity(alloc, memories.len())?;
        for (place, memory) in memories.iter().enumerate() {
            under.push(Rebuilt::new(
                alloc,
                memory.first,
                memory.last,
                memory.width,
                memory.signed,
                first + place as u32,
            )?)?;
        }
        let veiled = IndexSet::new(alloc, memories.len())?;
        Ok(Veils { under, veiled })
    }

    /// Whether the memory with this place is veiled.
    pub(crate) fn is_veiled(&self, place: usize) -> bool
        requires { place < self.now.veiled.size }
        ensures { result ≡ has_veiled self.now place }
    {
        self.veiled.contains(place)
    }
}
