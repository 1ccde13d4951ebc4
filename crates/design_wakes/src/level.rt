//! The processes that each change of a signal or memory wakes.

ghost use Rattle.std.specs.Prelude.{◌≡◌, ◌≤◌, ◌^◌, IfOk, length, map};
ghost use Rattle.design_model.specs.View.{process_view};
ghost use Rattle.design_wakes.specs.Tables.{IsLevelTable};
ghost use Rattle.process_names.specs.Names.{level_names};

use crate::transpose;
use cov_host::NoMemory;
use design_model::Process;
use index_sets::Rows;
use process_names::push_level;
use std::alloc::Global;

/// For each signal or memory the processes that each change of it wakes (IEEE 1364-2001, 9.7).
pub fn level_rows(
    alloc: Global,
    processes: &[Process],
    things: usize,
) -> Result<Rows<u32>, NoMemory>
    requires { length processes.now ≤ 2 ^ 32 }
    ensures { IfOk result (λ rows. IsLevelTable (map process_view processes.now) things rows) }
{
    let lists = level_lists(alloc, processes)?;
    transpose(alloc, lists.as_slice(), things)
}

/// For each process what wakes it at each change.
fn level_lists(alloc: Global, processes: &[Process]) -> Result<Vec<Vec<u32>>, NoMemory>
    ensures { IfOk result (λ lists. map (λ list. list.items) lists.items ≡ map (λ process. level_names (process_view process)) processes.now) }
{
    let mut lists = Vec::new(alloc);
    for process in processes {
        let mut found = Vec::new(alloc);
        push_level(process, &mut found)?;
        lists.push(found)?;
    }
    Ok(lists)
}
