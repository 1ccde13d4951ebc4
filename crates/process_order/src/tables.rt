ghost use Rattle.std.specs.Prelude.{◌≡◌, ◌≤◌, ◌^◌, IfOk, length};
ghost use Rattle.design_model.specs.View.{design_view};
ghost use Rattle.replay_model.specs.Tables.{AreTables};
ghost use Rattle.process_order.specs.Needs.{is_bound};
ghost use Rattle.process_order.specs.Tables.{tables_of};

use crate::names::{drive_lists, past_lists, watch_lists, without_repetitions};
use crate::order::run_order;
use crate::parts::{clocked_of, ordered_of, rest_of};
use cov_host::NoMemory;
use design_model::Design;
use index_sets::Rows;
use std::alloc::Global;

/// Which signals and memories each process watches, and in which order the processes are run.
pub struct ProcessTables {
    /// For each Assign and Comb what it mentions or lists, in order of reading.
    pub watched: Rows<u32>,
    /// The Clocked processes, in order of the design.
    pub clocked: Vec<u32>,
    /// The Assigns and Combs, each after the others that drive an unbound signal or memory which it watches.
    pub order: Vec<u32>,
    /// The Assigns and Combs on a cycle of such, and those after one, in order of the design.
    pub last: Vec<u32>,
}

// Written out so that a crate which lets one go does not prove again how each of its parts is let go.
impl Drop for ProcessTables {
    fn drop(self) {
        let ProcessTables {
            watched: _,
            clocked: _,
            order: _,
            last: _,
        } = self;
    }
}

/// The tables of a design in which these signals and memories are bound. It takes the time of the design's text.
pub fn process_tables(
    alloc: Global,
    design: &Design,
    bound: &[bool],
) -> Result<ProcessTables, NoMemory>
    requires { length design.now.processes ≤ 2 ^ 32 }
    ensures count { IfOk result (λ tables. length tables.watched ≡ length design.now.processes) }
    ensures tables { IfOk result (λ tables. AreTables (design_view design.now) (is_bound bound.now) (tables_of tables)) }
{
    let processes = design.processes.as_slice();
    let listed = watch_lists(alloc, processes)?;
    let driven = drive_lists(alloc, processes)?;
    let past_driven = past_lists(driven.as_slice(), 0);
    let count = past_lists(listed.as_slice(), past_driven);
    let watched = without_repetitions(alloc, listed.as_slice(), count)?;
    let order = run_order(alloc, watched.as_slice(), driven.as_slice(), bound, count)?;
    let rows = Rows::from_lists(alloc, watched.as_slice())?;
    let clocked = clocked_of(alloc, processes)?;
    let ordered = ordered_of(alloc, processes, order.as_slice())?;
    let last = rest_of(alloc, processes, &order)?;
    Ok(ProcessTables {
        watched: rows,
        clocked,
        order: ordered,
        last,
    })
}
