//! The tables of a design.

ghost use Rattle.std.specs.Prelude.{IfOk};
ghost use Rattle.design_model.specs.Lawful.{IsLawfulDesign};
ghost use Rattle.design_model.specs.View.{design_view};
ghost use Rattle.replay_sets.specs.wake_laws.OfDesign.{AreTablesOf};

use cov_host::NoMemory;
use design_model::Design;
use design_targets::target_rows;
use design_wakes::{edge_rows, event_rows, level_rows};
use four_state::Edge;
use std::alloc::Global;
use wake_tables::WakeTables;

/// What wakes each process of a design, and what each process may write.
pub(crate) fn tables_of(alloc: Global, design: &Design) -> Result<WakeTables, NoMemory>
    requires { IsLawfulDesign (design_view design.now) }
    ensures { IfOk result (λ tables. AreTablesOf (design_view design.now) tables) }
{
    let things = design.signals.len() + design.memories.len();
    let processes = design.processes.as_slice();
    let level = level_rows(alloc, processes, things)?;
    let rising = edge_rows(alloc, Edge::Pos, processes, things)?;
    let falling = edge_rows(alloc, Edge::Neg, processes, things)?;
    let blocking = target_rows(alloc, true, processes)?;
    let nonblocking = target_rows(alloc, false, processes)?;
    let events = event_rows(alloc, processes)?;
    Ok(WakeTables {
        things,
        processes: processes.len(),
        level,
        rising,
        falling,
        blocking,
        nonblocking,
        events,
    })
}
