//! The signals that each process assigns.

ghost use Rattle.std.specs.Prelude.{◌≡◌, IfOk, map};
ghost use Rattle.design_model.specs.View.{design_view, process_view};
ghost use Rattle.step_runs.specs.Rows.{AreWrittenRows, written_names};

use cov_host::NoMemory;
use design_model::{Design, Process};
use index_sets::Rows;
use process_names::push_assigned;
use std::alloc::Global;

/// For each process the signals and memories that it assigns. It takes the time of the design's text.
pub fn written_rows(alloc: Global, design: &Design) -> Result<Rows<u32>, NoMemory>
    ensures { IfOk result (AreWrittenRows (design_view design.now)) }
{
    let lists = written_lists(alloc, design.processes.as_slice())?;
    Rows::from_lists(alloc, lists.as_slice())
}

/// The same as lists.
fn written_lists(alloc: Global, processes: &[Process]) -> Result<Vec<Vec<u32>>, NoMemory>
    ensures { IfOk result (λ lists. map (λ list. list.items) lists.items ≡ map (λ process. written_names (process_view process)) processes.now) }
{
    let mut lists = Vec::new(alloc);
    for process in processes {
        let list = written(alloc, process)?;
        lists.push(list)?;
    }
    Ok(lists)
}

/// The signals and memories that a process assigns.
fn written(alloc: Global, process: &Process) -> Result<Vec<u32>, NoMemory>
    ensures { IfOk result (λ list. list.items ≡ written_names (process_view process.now)) }
{
    let mut list = Vec::new(alloc);
    push_assigned(true, process, &mut list)?;
    push_assigned(false, process, &mut list)?;
    Ok(list)
}
