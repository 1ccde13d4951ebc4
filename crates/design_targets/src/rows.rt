//! What each process may write, by its number.

ghost use Rattle.std.specs.Prelude.{◌≡◌, ◌∷◌, [], IfOk, if◌then◌else◌, map};
ghost use Rattle.std.specs.List.{All, flat_map};
ghost use Rattle.design_model.specs.Design.{body};
ghost use Rattle.design_model.specs.View.{process_view};
ghost use Rattle.design_targets.specs.Leaves.{leaf_view};
ghost use Rattle.design_targets.specs.Written.{IsShapedLeaf, IsShapedProcess, leaf_names, written};

use crate::leaves::{Leaf, push_leaves};
use crate::place::has_place;
use cov_host::NoMemory;
use design_model::Process;
use early_sets::Rows;
use std::alloc::Global;

/// For each process the signals and memories of which its blocking assignments may write a bit, or with `false` its
/// nonblocking ones, once for each assignment. An Assign counts as one blocking assignment.
pub fn target_rows(
    alloc: Global,
    blocking: bool,
    processes: &[Process],
) -> Result<Rows<u32>, NoMemory>
    requires { All (λ process. IsShapedProcess (process_view process)) processes.now }
    ensures { IfOk result (λ rows. rows ≡ map (λ process. written blocking (body (process_view process))) processes.now) }
{
    let lists = target_lists(alloc, blocking, processes)?;
    Rows::from_lists(alloc, lists.as_slice())
}

/// For each process what it may write by assignments of a kind.
fn target_lists(
    alloc: Global,
    blocking: bool,
    processes: &[Process],
) -> Result<Vec<Vec<u32>>, NoMemory>
    requires { All (λ process. IsShapedProcess (process_view process)) processes.now }
    ensures { IfOk result (λ lists. map (λ list. list.items) lists.items ≡ map (λ process. written blocking (body (process_view process))) processes.now) }
{
    let mut lists = Vec::new(alloc);
    for process in processes {
        let list = targets(alloc, blocking, process)?;
        lists.push(list)?;
    }
    Ok(lists)
}

/// What a process may write by assignments of a kind.
fn targets(alloc: Global, blocking: bool, process: &Process) -> Result<Vec<u32>, NoMemory>
    requires { IsShapedProcess (process_view process.now) }
    ensures { IfOk result (λ list. list.items ≡ written blocking (body (process_view process.now))) }
{
    let mut leaves = Vec::new(alloc);
    push_leaves(blocking, process, &mut leaves)?;
    named(alloc, leaves.as_slice())
}

/// The signals and memories of the parts that may have bits.
fn named(alloc: Global, leaves: &[Leaf]) -> Result<Vec<u32>, NoMemory>
    requires { All (λ leaf. IsShapedLeaf (leaf_view leaf)) leaves.now }
    ensures { IfOk result (λ list. list.items ≡ flat_map leaf_names (map leaf_view leaves.now)) }
{
    let mut list = Vec::new(alloc);
    for leaf in leaves {
        if has_bits(leaf) {
            list.push(leaf.thing)?;
        }
    }
    Ok(list)
}

/// Whether a part may have bits.
fn has_bits(leaf: &Leaf) -> bool
    requires { IsShapedLeaf (leaf_view leaf.now) }
    ensures { leaf_names (leaf_view leaf.now) ≡ (if result then leaf.now.thing ∷ [] else []) }
{
    match leaf.part {
        Some((low, _)) => has_place(low),
        None => true,
    }
}
