//! What an opened instance adds to the design.

ghost use Rattle.std.specs.Prelude.{◌≡◌, length, IfOk, OnOk};
ghost use Rattle.design_model.specs.View.{design_view};
ghost use Rattle.elab_instances.specs.InstanceView.{instantiation_view};
ghost use Rattle.elaborator.specs.Walk.{opened_design};

use cov_host::{Name, NoMemory};
use design_model::{Design, Instance};
use elab_instances::{Opened, push_aliases, push_constants, push_memories, push_signals};
use std::alloc::Global;

/// Adds an opened instance with its own parts to a design, in which this number is the next of an instance.
pub(crate) fn add_instance(
    alloc: Global,
    opened: &Opened,
    number: u32,
    draft: &mut Design,
) -> Result<(), NoMemory>
    ensures { OnOk result (number ≡ length draft.old.instances → design_view draft.new ≡ opened_design (instantiation_view opened.now.given.now) (design_view draft.old)) }
{
    draft.instances.push(Instance {
        path: copy(alloc, &opened.given.path)?,
        module: copy(alloc, &opened.given.module.name.name)?,
    })?;
    push_signals(alloc, opened, number, &mut draft.signals)?;
    push_memories(alloc, opened, number, &mut draft.memories)?;
    push_constants(alloc, opened, number, &mut draft.constants)?;
    push_aliases(alloc, opened, number, &mut draft.aliases)?;
    Ok(())
}

/// A copy of a name.
fn copy(alloc: Global, name: &Name) -> Result<Name, NoMemory>
    ensures { IfOk result (λ copy. copy ≡ name.now) }
{
    Ok(Name::from_vec(Vec::from_slice(alloc, name.as_slice())?))
}
