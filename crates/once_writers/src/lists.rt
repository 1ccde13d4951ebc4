//! The signals that each process writes at most once in each evaluation.

ghost use Rattle.std.specs.Prelude.{◌≡◌, ◌<◌, ◌++◌, IfOk, OnOk, length, map};
ghost use Rattle.std.specs.List.{All, filter};
ghost use Rattle.design_model.specs.View.{process_view};
ghost use Rattle.design_targets.specs.Written.{IsShapedProcess};
ghost use Rattle.once_writers.specs.Lists.{is_clocked, once_of, once_written};
ghost use Rattle.once_writers.specs.Writers.{flag_at};
ghost use Rattle.target_counts.specs.Counts.{IsClear};

use crate::wanted::is_set;
use cov_host::NoMemory;
use design_model::Process;
use design_targets::target_rows;
use process_names::push_level;
use std::alloc::Global;
use target_counts::{TargetCounts, push_once};

/// For each process the marked signals that it may write, by its text at most once, if no level wakes it.
pub(crate) fn once_lists(
    alloc: Global,
    processes: &[Process],
    wanted: &[bool],
) -> Result<Vec<Vec<u32>>, NoMemory>
    requires { All (λ process. IsShapedProcess (process_view process)) processes.now }
    ensures { IfOk result (λ lists. map (λ list. list.items) lists.items ≡ map (λ process. once_written wanted.now (process_view process)) processes.now) }
{
    let blocking = target_rows(alloc, true, processes)?;
    let nonblocking = target_rows(alloc, false, processes)?;
    let mut counts = TargetCounts::new(alloc, wanted.len())?;
    let mut lists = Vec::new(alloc);
    for process in 0..processes.len() {
        let mut marked = Vec::new(alloc);
        push_marked(wanted, blocking.row(process), &mut marked)?;
        push_marked(wanted, nonblocking.row(process), &mut marked)?;
        let list = once_list(alloc, &processes[process], marked.as_slice(), &mut counts)?;
        lists.push(list)?;
    }
    Ok(lists)
}

/// Of some signals those that a process names at most once on each path, if no level wakes it.
fn once_list(
    alloc: Global,
    process: &Process,
    marked: &[u32],
    counts: &mut TargetCounts,
) -> Result<Vec<u32>, NoMemory>
    requires clear { IsClear counts.old }
    requires within { All (λ thing. thing < length counts.old.counts.items) marked.now }
    ensures found { IfOk result (λ found. found.items ≡ once_of (process_view process.now) marked.now) }
    ensures clear { OnOk result (IsClear counts.new) }
    ensures size { OnOk result (length counts.new.counts.items ≡ length counts.old.counts.items) }
{
    let mut found = Vec::new(alloc);
    if !marked.is_empty() && no_level_wakes(alloc, process)? {
        push_once(counts, process, marked, &mut found)?;
    }
    Ok(found)
}

/// Whether no change wakes the process but the edges that it lists.
fn no_level_wakes(alloc: Global, process: &Process) -> Result<bool, NoMemory>
    ensures { IfOk result (λ none. none ≡ is_clocked (process_view process.now)) }
{
    let mut names = Vec::new(alloc);
    push_level(process, &mut names)?;
    Ok(names.is_empty())
}

/// Adds the marked ones of some numbers.
fn push_marked(wanted: &[bool], row: &[u32], marked: &mut Vec<u32>) -> Result<(), NoMemory>
    ensures { OnOk result (marked.new.items ≡ marked.old.items ++ filter (flag_at wanted.now) row.now) }
{
    for thing in row {
        if is_set(wanted, *thing as usize) {
            marked.push(*thing)?;
        }
    }
    Ok(())
}
