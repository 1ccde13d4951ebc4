//! The numbers of signals and memories.

ghost use Rattle.std.specs.Prelude.{◌≡◌, ℕ, IfOk, true};
ghost use Rattle.std.specs.List.{All};
ghost use Rattle.design_model.specs.Design.{is_number};
ghost use Rattle.design_model.specs.View.{design_view};
ghost use Rattle.body_calls.specs.Own.{is_in};

use cov_host::NoMemory;
use design_model::Design;
use std::alloc::Global;

/// The number of the first signal with this name, or of the first memory.
pub fn thing_named(design: &Design, name: &[u8]) -> Option<u32> {
    let signals = design.signals.as_slice();
    for (place, signal) in signals.iter().enumerate() {
        if signal.name.as_slice() == name {
            return u32::try_from(place).ok();
        }
    }
    for (place, memory) in design.memories.as_slice().iter().enumerate() {
        if memory.name.as_slice() == name {
            return u32::try_from(signals.len().checked_add(place)?).ok();
        }
    }
    None
}

/// The numbers of all signals and memories. A lawful design has so few that this many are not refused.
pub(crate) fn all_things(alloc: Global, design: &Design) -> Result<Vec<u32>, NoMemory>
    ensures numbers { IfOk result (λ things. All (λ x. is_number (design_view design.now) x ≡ true) things.items) }
    ensures all { IfOk result (λ things. (x : ℕ) → is_number (design_view design.now) x ≡ true → is_in things.items x ≡ true) }
{
    let signals = design.signals.len();
    let memories = design.memories.len();
    if signals > 65536 || memories > 262144 {
        return Err(NoMemory);
    }
    let mut things = Vec::with_capacity(alloc, signals + memories)?;
    for number in 0..signals + memories {
        things.push(number as u32)?;
    }
    Ok(things)
}
