//! Copies of targets.

ghost use Rattle.std.specs.Prelude.{◌≡◌, IfOk, map};
ghost use Rattle.design_model.specs.View.{target_view};

use crate::terms::copy_term;
use cov_host::NoMemory;
use design_model::Target;
use std::alloc::Global;

/// A copy of the target.
#[cycle(targets)]
pub(crate) fn copy_target(alloc: Global, target: &Target) -> Result<Target, NoMemory>
    ensures { IfOk result (λ copy. target_view copy ≡ target_view target.now) }
{
    match target {
        Target::Whole(signal) => Ok(Target::Whole(*signal)),
        Target::Part { signal, low, width } => Ok(Target::Part {
            signal: *signal,
            low: copy_term(alloc, low)?,
            width: *width,
        }),
        Target::Word { memory, index } => Ok(Target::Word {
            memory: *memory,
            index: copy_term(alloc, index)?,
        }),
        Target::Several(targets) => Ok(Target::Several(copy_targets(alloc, targets)?)),
    }
}

/// Copies of the targets.
#[cycle(targets)]
fn copy_targets(alloc: Global, targets: &[Target]) -> Result<Vec<Target>, NoMemory>
    ensures { IfOk result (λ copy. map target_view copy.items ≡ map target_view targets.now) }
{
    let mut copies = Vec::with_capacity(alloc, targets.len())?;
    for target in targets {
        copies.push(copy_target(alloc, target)?)?;
    }
    Ok(copies)
}
