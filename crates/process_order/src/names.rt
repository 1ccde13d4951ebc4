#![tactic(auto, using(std::proofs::lemmas::List::append_assoc))]
//! What the processes of a design watch and drive, as lists of signals and memories by process.

ghost use Rattle.std.specs.Prelude.{◌≡◌, ◌<◌, ◌≤◌, ◌↔◌, ◌++◌, ◌∷◌, [], ℕ, IfOk, OnOk, if◌then◌else◌, length, map};
ghost use Rattle.std.specs.List.{Contains};
ghost use Rattle.design_model.specs.View.{process_view};
ghost use Rattle.index_sets.specs.Rows.{row_at};
ghost use Rattle.design_wakes.specs.process_names.Names.{level_names};
ghost use Rattle.process_order.specs.Names.{driven_names, is_clocked, lists_of};

use cov_host::NoMemory;
use design_model::Process;
use design_wakes::{push_assigned, push_level};
use index_sets::IndexSet;
use std::alloc::Global;

/// For each process what it mentions or lists.
pub(crate) fn watch_lists(alloc: Global, processes: &[Process]) -> Result<Vec<Vec<u32>>, NoMemory>
    ensures { IfOk result (λ lists. lists_of lists.items ≡ map (λ process. level_names (process_view process)) processes.now) }
{
    let mut lists = Vec::new(alloc);
    for process in processes {
        let mut found = Vec::new(alloc);
        push_level(process, &mut found)?;
        lists.push(found)?;
    }
    Ok(lists)
}

/// For each Assign and Comb what it assigns, and nothing for a Clocked.
pub(crate) fn drive_lists(alloc: Global, processes: &[Process]) -> Result<Vec<Vec<u32>>, NoMemory>
    ensures { IfOk result (λ lists. lists_of lists.items ≡ map (λ process. driven_names (process_view process)) processes.now) }
{
    let mut lists = Vec::new(alloc);
    for process in processes {
        let mut found = Vec::new(alloc);
        push_driven(process, &mut found)?;
        lists.push(found)?;
    }
    Ok(lists)
}

/// Adds what an Assign or Comb assigns.
fn push_driven(process: &Process, found: &mut Vec<u32>) -> Result<(), NoMemory>
    ensures { OnOk result (found.new.items ≡ found.old.items ++ driven_names (process_view process.now)) }
{
    match process {
        Process::Assign { .. } | Process::Comb { .. } => {
            push_assigned(true, process, found)?;
            push_assigned(false, process, found)
        }
        Process::Clocked { .. } => Ok(()),
    }
}

/// Whether the process waits for edges.
pub(crate) fn waits_for_edges(process: &Process) -> bool
    ensures { result ≡ is_clocked (process_view process.now) }
{
    matches!(process, Process::Clocked { .. })
}

/// One more than the greatest number in the lists, and at least `least`.
pub(crate) fn past_lists(lists: &[Vec<u32>], least: usize) -> usize
    ensures least { least ≤ result }
    ensures past { (p x : ℕ) → Contains (row_at (lists_of lists.now) p) x → x < result }
{
    let mut past = least;
    for list in lists {
        past = past_list(list.as_slice(), past);
    }
    past
}

/// One more than the greatest number in the list, and at least `least`.
fn past_list(list: &[u32], least: usize) -> usize
    ensures least { least ≤ result }
    ensures past { (x : ℕ) → Contains list.now x → x < result }
{
    let mut past = least;
    for number in list {
        past = past.max(*number as usize + 1);
    }
    past
}

/// Each list without its repetitions. All numbers in them are below `count`.
pub(crate) fn without_repetitions(
    alloc: Global,
    lists: &[Vec<u32>],
    count: usize,
) -> Result<Vec<Vec<u32>>, NoMemory>
    requires { (p x : ℕ) → Contains (row_at (lists_of lists.now) p) x → x < count }
    ensures count { IfOk result (λ once. length once.items ≡ length lists.now) }
    ensures same { IfOk result (λ once. (p x : ℕ) → Contains (row_at (lists_of once.items) p) x ↔ Contains (row_at (lists_of lists.now) p) x) }
{
    let mut seen = IndexSet::new(alloc, count)?;
    let mut once = Vec::new(alloc);
    for list in lists {
        let kept = first_of_each(alloc, list.as_slice(), &mut seen)?;
        once.push(kept)?;
    }
    Ok(once)
}

/// The numbers of a list, each where it is first.
fn first_of_each(alloc: Global, list: &[u32], seen: &mut IndexSet) -> Result<Vec<u32>, NoMemory>
    requires { (x : ℕ) → Contains list.now x → x < seen.old.size }
    ensures size { seen.new.size ≡ seen.old.size }
    ensures same { IfOk result (λ kept. (x : ℕ) → Contains kept.items x ↔ Contains list.now x) }
{
    seen.clear();
    let mut kept = Vec::new(alloc);
    for number in list {
        let is_first = seen.insert(*number as usize);
        push_if(is_first, *number, &mut kept)?;
    }
    Ok(kept)
}

/// Adds a number if this holds.
pub(crate) fn push_if(holds: bool, number: u32, numbers: &mut Vec<u32>) -> Result<(), NoMemory>
    ensures { OnOk result (numbers.new.items ≡ (if holds then numbers.old.items ++ number ∷ [] else numbers.old.items)) }
{
    if holds {
        numbers.push(number)?;
    }
    Ok(())
}
