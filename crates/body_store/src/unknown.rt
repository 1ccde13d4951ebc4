ghost use Rattle.std.specs.Prelude.{◌+◌, ◌≤◌, IfOk, length};
ghost use Rattle.std.specs.List.{All};
ghost use Rattle.body_store.specs.Made.{AreUnknown, HasWordWidth};

use crate::StoredMemory;
use cov_host::NoMemory;
use design_model::Memory;
use std::alloc::Global;

/// The memories of a design, of which nothing is known, with the numbers from this one up.
pub(crate) fn memories(
    alloc: Global,
    memories: &[Memory],
    first: u32,
) -> Result<Vec<StoredMemory>, NoMemory>
    requires widths { All HasWordWidth memories.now }
    requires few { first + length memories.now ≤ 4294967295 }
    ensures { IfOk result (λ made. AreUnknown first memories.now made.items) }
{
    let mut made = Vec::with_capacity(alloc, memories.len())?;
    for (place, memory) in memories.iter().enumerate() {
        made.push(StoredMemory::new(alloc, memory, first + place as u32)?)?;
    }
    Ok(made)
}
