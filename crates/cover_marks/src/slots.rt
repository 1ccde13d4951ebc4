//! The slots of points and of visits in the tables of numbers.

ghost use Rattle.std.specs.Prelude.{◌≡◌, ◌<◌, ◌^◌, IfOk, length, slice_index_or};
ghost use Rattle.std.specs.List.{All};
ghost use Rattle.cover_points.specs.Order.{second_rank};
ghost use Rattle.cover_marks.specs.Slots.{index_slot, index_slots, line_slot, line_slots, machine_slot, machine_slots, node_slot, node_slots, state_counts};
ghost use Rattle.cover_points.specs.design_machines.declared.machine.Machine.{Machine as TheMachine};

use cov_host::NoMemory;
use cover_points::{IndexPoint, LinePoint, Machine, MachinePoint, NodeCase, NodePoint, case_rank};
use number_tables::Slot;
use std::alloc::Global;

/// How many cases there are.
const CASES: usize = 10;

/// The slots of line points.
pub(crate) fn line_slots(alloc: Global, points: &[LinePoint]) -> Result<Vec<Slot>, NoMemory>
    ensures { IfOk result (λ slots. slots.items ≡ line_slots points.now) }
{
    let mut slots = Vec::with_capacity(alloc, points.len())?;
    for point in points {
        slots.push(line_slot(point.process, point.line))?;
    }
    Ok(slots)
}

/// The slots of the cases of nodes.
pub(crate) fn node_slots(alloc: Global, points: &[NodePoint]) -> Result<Vec<Slot>, NoMemory>
    ensures { IfOk result (λ slots. slots.items ≡ node_slots points.now) }
{
    let mut slots = Vec::with_capacity(alloc, points.len())?;
    for point in points {
        slots.push(node_slot(point.process, point.node, point.case))?;
    }
    Ok(slots)
}

/// The slots of the points of bits or of words.
pub(crate) fn index_slots(alloc: Global, points: &[IndexPoint]) -> Result<Vec<Slot>, NoMemory>
    ensures { IfOk result (λ slots. slots.items ≡ index_slots points.now) }
{
    let mut slots = Vec::with_capacity(alloc, points.len())?;
    for point in points {
        slots.push(index_slot(point.thing, point.index, point.second))?;
    }
    Ok(slots)
}

/// The slots of the states and arcs of machines with these counts of states.
pub(crate) fn machine_slots(
    alloc: Global,
    counts: &[u32],
    points: &[MachinePoint],
) -> Result<Vec<Slot>, NoMemory>
    ensures { IfOk result (λ slots. slots.items ≡ machine_slots counts.now points.now) }
{
    let mut slots = Vec::with_capacity(alloc, points.len())?;
    for point in points {
        slots.push(machine_slot(counts, *point))?;
    }
    Ok(slots)
}

/// How many states each machine has.
pub(crate) fn state_counts(alloc: Global, machines: &[Machine]) -> Result<Vec<u32>, NoMemory>
    requires { All (λ (x : TheMachine). length x.names < 2 ^ 32) machines.now }
    ensures { IfOk result (λ counts. counts.items ≡ state_counts machines.now) }
{
    let mut counts = Vec::with_capacity(alloc, machines.len())?;
    for machine in machines {
        counts.push(machine.names.len() as u32)?;
    }
    Ok(counts)
}

/// The slot of a statement: a row for each process, and a column for each number.
pub(crate) fn line_slot(process: u32, line: u32) -> Slot
    ensures { result ≡ line_slot process line }
{
    Slot {
        row: process,
        column: line as usize,
    }
}

/// The slot of a case of a node: a row for each process, and a column for each case of each number.
pub(crate) fn node_slot(process: u32, node: u32, case: NodeCase) -> Slot
    ensures { result ≡ node_slot process node case }
{
    Slot {
        row: process,
        column: node as usize * CASES + case_rank(case) as usize,
    }
}

/// The slot of one of the two points of an index: a row for each signal or memory, and two columns for each index.
pub(crate) fn index_slot(thing: u32, index: u32, second: bool) -> Slot
    ensures { result ≡ index_slot thing index second }
{
    Slot {
        row: thing,
        column: index as usize * 2 + side_of(second),
    }
}

/// The slot of a state or an arc: a row for each machine, and a column for each state, and then one for each pair of states.
pub(crate) fn machine_slot(counts: &[u32], point: MachinePoint) -> Slot
    ensures { result ≡ machine_slot counts.now point }
{
    match point {
        MachinePoint::State { machine, state } => Slot {
            row: machine,
            column: state as usize,
        },
        MachinePoint::Arc { machine, from, to } => Slot {
            row: machine,
            column: (from as usize + 1) * count_of(counts, machine) + to as usize,
        },
    }
}

/// How many states a machine has.
fn count_of(counts: &[u32], machine: u32) -> usize
    ensures of { result ≡ slice_index_or counts.now machine 0 }
    ensures small { result < 2 ^ 32 }
{
    match counts.get(machine as usize) {
        Some(count) => *count as usize,
        None => 0,
    }
}

/// The column of a point among the two of its index.
fn side_of(second: bool) -> usize
    ensures { result ≡ second_rank second }
{
    if second { 1 } else { 0 }
}
