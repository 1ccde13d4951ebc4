//! Copies of processes.

ghost use Rattle.std.specs.Prelude.{◌≡◌, IfOk, map};
ghost use Rattle.design_model.specs.View.{process_view};

use crate::statements::copy_stmt;
use crate::targets::copy_target;
use crate::terms::copy_term;
use cov_host::{NoMemory, Sequence};
use design_model::Process;
use std::alloc::Global;

/// Copies of processes that lie in memory one after the other, each in the order in which its body is made: the bodies
/// of a design are made between other values, and a run that walks them misses the caches.
pub(crate) fn copies(alloc: Global, processes: &[Process]) -> Result<Sequence<Process>, NoMemory>
    ensures { IfOk result (λ copies. map process_view copies ≡ map process_view processes.now) }
{
    let mut copies = Vec::with_capacity(alloc, processes.len())?;
    for process in processes {
        copies.push(copy_process(alloc, process)?)?;
    }
    Ok(Sequence::from_vec(copies))
}

/// A copy of the process.
fn copy_process(alloc: Global, process: &Process) -> Result<Process, NoMemory>
    ensures { IfOk result (λ copy. process_view copy ≡ process_view process.now) }
{
    match process {
        Process::Assign {
            instance,
            target,
            value,
            counted,
        } => Ok(Process::Assign {
            instance: *instance,
            target: copy_target(alloc, target)?,
            value: copy_term(alloc, value)?,
            counted: *counted,
        }),
        Process::Comb {
            instance,
            wakes,
            body,
        } => Ok(Process::Comb {
            instance: *instance,
            wakes: copy_items(alloc, wakes.as_slice())?,
            body: copy_stmt(alloc, body)?,
        }),
        Process::Clocked {
            instance,
            events,
            body,
        } => Ok(Process::Clocked {
            instance: *instance,
            events: copy_items(alloc, events.as_slice())?,
            body: copy_stmt(alloc, body)?,
        }),
    }
}

/// Copies of the items of a list.
fn copy_items<T: Copy>(alloc: Global, items: &[T]) -> Result<Sequence<T>, NoMemory>
    ensures { IfOk result (λ copies. copies ≡ items.now) }
{
    let mut copies = Sequence::new(alloc);
    copies.extend_from_slice(items)?;
    Ok(copies)
}
