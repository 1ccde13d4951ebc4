ghost use Rattle.std.specs.Prelude.{◌≡◌, ◌<◌, ◌+◌, ℕ, IfOk, Some, length, map};
ghost use Rattle.design_model.specs.Lawful.{IsLawfulDesign};
ghost use Rattle.design_model.specs.View.{design_view};
ghost use Rattle.once_writers.specs.Lists.{first_of};
ghost use Rattle.once_writers.specs.Writers.{AreOnceWriters, flag_at, writer_at};

use crate::lists::once_lists;
use crate::wanted::wanted_signals;
use cov_host::NoMemory;
use design_model::Design;
use design_wakes::{edge_rows, transpose};
use four_state::Edge;
use index_sets::Rows;
use std::alloc::Global;

/// For each signal or memory the process that writes it by its text at most once in each evaluation, where it is an
/// event signal that the dump gives and only edges wake that process. `bound` says for each signal whether the dump
/// gives it. It takes time for the text of the design; what a process writes of such signals in many branches, one in
/// the other, costs twice their number more (`target_counts`).
pub fn once_writers(
    alloc: Global,
    design: &Design,
    bound: &[bool],
) -> Result<Vec<Option<u32>>, NoMemory>
    requires { IsLawfulDesign (design_view design.now) }
    ensures count { IfOk result (λ writers. length writers.items ≡ length design.now.signals + length design.now.memories) }
    ensures within { IfOk result (λ writers. (x p : ℕ) → writer_at writers.items x ≡ Some p → p < length design.now.processes) }
    ensures writers { IfOk result (λ writers. AreOnceWriters (design_view design.now) (flag_at bound.now) writers.items) }
{
    let things = design.signals.len() + design.memories.len();
    let processes = design.processes.as_slice();
    let rising = edge_rows(alloc, Edge::Pos, processes, things)?;
    let falling = edge_rows(alloc, Edge::Neg, processes, things)?;
    let wanted = wanted_signals(alloc, bound, &rising, &falling, things)?;
    let lists = once_lists(alloc, processes, wanted.as_slice())?;
    let writers = transpose(alloc, lists.as_slice(), things)?;
    first_of_each(alloc, &writers, things)
}

/// The first item of each of so many rows, if it has one.
fn first_of_each(
    alloc: Global,
    rows: &Rows<u32>,
    count: usize,
) -> Result<Vec<Option<u32>>, NoMemory>
    requires { count ≡ length rows.now }
    ensures { IfOk result (λ firsts. firsts.items ≡ map first_of rows.now) }
{
    let mut firsts = Vec::new(alloc);
    for row in 0..count {
        firsts.push(rows.row(row).first().copied())?;
    }
    Ok(firsts)
}
