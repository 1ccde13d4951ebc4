//! The processes of a design, in order in memory.

ghost use Rattle.std.specs.Prelude.{◌≡◌, OnOk};
ghost use Rattle.design_model.specs.View.{design_view};

use crate::processes::copies;
use crate::sizes::are_small;
use cov_host::NoMemory;
use design_model::Design;
use std::alloc::Global;

/// Puts copies of the processes of a design in their place, where their bodies are small: they lie in memory one after
/// the other, and a run that walks them misses the caches less.
pub fn put_in_order(alloc: Global, design: &mut Design) -> Result<(), NoMemory>
    ensures { OnOk result (design_view design.new ≡ design_view design.old) }
{
    if are_small(design.processes.as_slice()) {
        design.processes = copies(alloc, design.processes.as_slice())?;
    }
    Ok(())
}
