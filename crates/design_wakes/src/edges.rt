//! The edges that processes list.

ghost use Rattle.std.specs.Prelude.{◌≡◌, ◌≤◌, ◌++◌, ◌^◌, IfOk, OnOk, length, map};
ghost use Rattle.design_model.specs.Machine.{events_of, same_edge};
ghost use Rattle.design_model.specs.View.{process_view};
ghost use Rattle.design_wakes.specs.Tables.{IsEdgeTable, edge_names, edges_named, machine_edge};

use crate::transpose;
use cov_host::NoMemory;
use design_model::Process;
use four_state::Edge;
use index_sets::Rows;
use std::alloc::Global;

/// For each signal the processes that list this edge of it (IEEE 1364-2001, 9.7.2).
pub fn edge_rows(
    alloc: Global,
    edge: Edge,
    processes: &[Process],
    things: usize,
) -> Result<Rows<u32>, NoMemory>
    requires { length processes.now ≤ 2 ^ 32 }
    ensures { IfOk result (λ rows. IsEdgeTable (machine_edge edge) (map process_view processes.now) things rows) }
{
    let lists = edge_lists(alloc, edge, processes)?;
    transpose(alloc, lists.as_slice(), things)
}

/// For each process its list of edges, which is empty for a process that waits for no edge.
pub fn event_rows(alloc: Global, processes: &[Process]) -> Result<Rows<(Edge, u32)>, NoMemory>
    ensures { IfOk result (λ rows. rows ≡ map (λ process. events_of (process_view process)) processes.now) }
{
    let lists = event_lists(alloc, processes)?;
    Rows::from_lists(alloc, lists.as_slice())
}

/// For each process the signals of which it lists this edge.
fn edge_lists(alloc: Global, edge: Edge, processes: &[Process]) -> Result<Vec<Vec<u32>>, NoMemory>
    ensures { IfOk result (λ lists. map (λ list. list.items) lists.items ≡ map (λ process. edge_names (machine_edge edge) (process_view process)) processes.now) }
{
    let mut lists = Vec::new(alloc);
    for process in processes {
        let mut found = Vec::new(alloc);
        push_edges(edge, process, &mut found)?;
        lists.push(found)?;
    }
    Ok(lists)
}

/// Adds the signals of which a process lists this edge.
fn push_edges(edge: Edge, process: &Process, found: &mut Vec<u32>) -> Result<(), NoMemory>
    ensures { OnOk result (found.new.items ≡ found.old.items ++ edge_names (machine_edge edge) (process_view process.now)) }
{
    match process {
        Process::Assign { .. } | Process::Comb { .. } => Ok(()),
        Process::Clocked { events, .. } => push_named(edge, events.as_slice(), found),
    }
}

/// Adds the signals of which a list contains this edge.
fn push_named(edge: Edge, events: &[(Edge, u32)], found: &mut Vec<u32>) -> Result<(), NoMemory>
    ensures { OnOk result (found.new.items ≡ found.old.items ++ edges_named (machine_edge edge) events.now) }
{
    for event in events {
        if is_same(event.0, edge) {
            found.push(event.1)?;
        }
    }
    Ok(())
}

/// For each process its list of edges.
fn event_lists(alloc: Global, processes: &[Process]) -> Result<Vec<Vec<(Edge, u32)>>, NoMemory>
    ensures { IfOk result (λ lists. map (λ list. list.items) lists.items ≡ map (λ process. events_of (process_view process)) processes.now) }
{
    let mut lists = Vec::new(alloc);
    for process in processes {
        let list = Vec::from_slice(alloc, listed_edges(process))?;
        lists.push(list)?;
    }
    Ok(lists)
}

/// The list of edges of a process.
fn listed_edges(process: &Process) -> &[(Edge, u32)]
    ensures { result.now ≡ events_of (process_view process.now) }
{
    match process {
        Process::Assign { .. } | Process::Comb { .. } => &[],
        Process::Clocked { events, .. } => events.as_slice(),
    }
}

/// Whether two edges are the same.
fn is_same(listed: Edge, edge: Edge) -> bool
    ensures { result ≡ same_edge listed (machine_edge edge) }
{
    match listed {
        Edge::Pos => matches!(edge, Edge::Pos),
        Edge::Neg => matches!(edge, Edge::Neg),
    }
}
