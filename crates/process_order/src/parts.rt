//! The processes of a design in three parts: the Clocked, the others in their order, and the rest.

ghost use Rattle.std.specs.Prelude.{◌≡◌, ◌<◌, ◌≤◌, ◌↔◌, ◌^◌, ℕ, false, true, IfOk, IsFalse, IsTrue, filter, length};
ghost use Rattle.std.specs.List.{Contains};
ghost use Rattle.design_model.specs.Design.{AreDistinct, In};
ghost use Rattle.process_order.specs.Parts.{IsLeft, is_run, waits_at};

use crate::names::{push_if, waits_for_edges};
use cov_host::NoMemory;
use design_model::Process;
use index_sets::IndexSet;
use std::alloc::Global;

/// The Clocked processes.
pub(crate) fn clocked_of(alloc: Global, processes: &[Process]) -> Result<Vec<u32>, NoMemory>
    requires { length processes.now ≤ 2 ^ 32 }
    ensures has { IfOk result (λ found. (p : ℕ) → In p found.items ↔ ((p < length processes.now) × (waits_at processes.now p ≡ true))) }
    ensures once { IfOk result (λ found. AreDistinct found.items) }
{
    let mut found = Vec::new(alloc);
    for process in 0..processes.len() {
        let is_clocked = waits(processes, process);
        push_if(is_clocked, process as u32, &mut found)?;
    }
    Ok(found)
}

/// The Assigns and Combs of an order, which has other numbers too.
pub(crate) fn ordered_of(
    alloc: Global,
    processes: &[Process],
    order: &[usize],
) -> Result<Vec<u32>, NoMemory>
    requires { length processes.now ≤ 2 ^ 32 }
    ensures { IfOk result (λ found. found.items ≡ filter (is_run processes.now) order.now) }
{
    let mut found = Vec::new(alloc);
    for node in order {
        if runs(processes, *node) {
            found.push(*node as u32)?;
        }
    }
    Ok(found)
}

/// The Assigns and Combs that are not in the order.
pub(crate) fn rest_of(
    alloc: Global,
    processes: &[Process],
    order: &IndexSet,
) -> Result<Vec<u32>, NoMemory>
    requires few { length processes.now ≤ 2 ^ 32 }
    requires within { length processes.now ≤ order.now.size }
    ensures has { IfOk result (λ found. (p : ℕ) → In p found.items ↔ ((p < length processes.now) × (waits_at processes.now p ≡ false) × (Contains order.now.items p → ⊥))) }
    ensures once { IfOk result (λ found. AreDistinct found.items) }
{
    let mut found = Vec::new(alloc);
    for process in 0..processes.len() {
        let is_rest = is_left(processes, order, process);
        push_if(is_rest, process as u32, &mut found)?;
    }
    Ok(found)
}

/// Whether the process with this number is a Clocked.
fn waits(processes: &[Process], process: usize) -> bool
    requires { process < length processes.now }
    ensures { result ≡ waits_at processes.now process }
{
    waits_for_edges(&processes[process])
}

/// Whether the number is that of an Assign or Comb.
fn runs(processes: &[Process], node: usize) -> bool
    ensures { result ≡ is_run processes.now node }
{
    if node >= processes.len() {
        return false;
    }
    !waits(processes, node)
}

/// Whether the process with this number is an Assign or Comb that is not in the order.
fn is_left(processes: &[Process], order: &IndexSet, process: usize) -> bool
    requires process { process < length processes.now }
    requires within { length processes.now ≤ order.now.size }
    ensures yes { IsTrue result → IsLeft processes.now order.now.items process }
    ensures no { IsFalse result → IsLeft processes.now order.now.items process → ⊥ }
{
    if waits(processes, process) {
        return false;
    }
    !order.contains(process)
}
