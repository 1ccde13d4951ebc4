//! The arcs and states of a machine.

ghost use Rattle.std.specs.Prelude.{◌≡◌, ◌++◌, ◌<◌, ◌↔◌, [], true, ℕ, IfOk, OnOk, length, map};
ghost use Rattle.std.specs.List.{Contains, list_all};
ghost use Rattle.std.specs.List.Sorted.{IsStrictlySortedBy};
ghost use Rattle.std.specs.Ordering.{nat_cmp};
ghost use Rattle.design_model.specs.Design.{body, signal_at};
ghost use Rattle.design_model.specs.Shape.{is_body};
ghost use Rattle.design_model.specs.Lawful.{IsLawfulDesign};
ghost use Rattle.design_model.specs.View.{design_view, process_view};
ghost use Rattle.fsm_extract.specs.Arcs.{IsArc, IsState};
ghost use Rattle.fsm_extract.specs.Order.{arc_cmp};
ghost use Rattle.fsm_extract.specs.Walked.{arcs_in, process_arcs, process_states, states_in};

use crate::Arcs;
use crate::machine::Machine;
use crate::sorted::sorted;
use crate::walk::{Found, walk_stmt};
use cov_host::NoMemory;
use design_model::{Design, Process};
use std::alloc::Global;

/// The arcs and states that the case statements of a design draw for a machine whose state is in the signal `current` and
/// whose next state is assigned to the signal `next`. An arc may lead from a state to the same state.
pub fn arcs(alloc: Global, design: &Design, current: u32, next: u32) -> Result<Arcs, NoMemory>
    requires lawful { IsLawfulDesign (design_view design.now) }
    requires current_listed { current < length design.now.signals }
    requires next_listed { next < length design.now.signals }
    requires one_width { (signal_at (design_view design.now) current).width ≡ (signal_at (design_view design.now) next).width }
    ensures pairs_rise { IfOk result (λ arcs. IsStrictlySortedBy arc_cmp arcs.pairs) }
    ensures pairs { IfOk result (λ arcs. (v w : ℕ) → Contains arcs.pairs (v, w) ↔ IsArc (design_view design.now) current next v w) }
    ensures states_rise { IfOk result (λ arcs. IsStrictlySortedBy nat_cmp arcs.states) }
    ensures states { IfOk result (λ arcs. (v : ℕ) → Contains arcs.states v ↔ IsState (design_view design.now) current next v) }
{
    let machine = Machine::new(design, current, next);
    let mut found = Found {
        around: Vec::new(alloc),
        arcs: Vec::new(alloc),
        states: Vec::new(alloc),
    };
    walk_processes(&machine, design.processes.as_slice(), &mut found)?;
    let Found { arcs, states, .. } = found;
    let pairs = sorted(arcs);
    let mut values = states;
    push_ends(pairs.as_slice(), &mut values)?;
    let states = sorted(values);
    Ok(Arcs { pairs, states })
}

/// Adds the values to which arcs lead.
fn push_ends(arcs: &[(u128, u128)], states: &mut Vec<u128>) -> Result<(), NoMemory>
    ensures { OnOk result (states.new.items ≡ states.old.items ++ map (λ arc. arc.1) arcs.now) }
{
    for (_, to) in arcs {
        states.push(*to)?;
    }
    Ok(())
}

/// Adds what processes draw.
fn walk_processes(
    machine: &Machine,
    processes: &[Process],
    found: &mut Found,
) -> Result<(), NoMemory>
    requires bodies { list_all (λ process. is_body (design_view machine.now.constants.design.now) (body process)) (map process_view processes.now) ≡ true }
    requires around { found.old.around.items ≡ [] }
    ensures arcs { OnOk result (found.new.arcs.items ≡ found.old.arcs.items ++ process_arcs (design_view machine.now.constants.design.now) machine.now.current machine.now.next (map process_view processes.now)) }
    ensures states { OnOk result (found.new.states.items ≡ found.old.states.items ++ process_states (design_view machine.now.constants.design.now) machine.now.current (map process_view processes.now)) }
{
    for process in processes {
        walk_process(machine, process, found)?;
    }
    Ok(())
}

/// Adds what a process draws. A continuous assignment has no case.
fn walk_process(machine: &Machine, process: &Process, found: &mut Found) -> Result<(), NoMemory>
    requires body { is_body (design_view machine.now.constants.design.now) (body (process_view process.now)) ≡ true }
    requires around { found.old.around.items ≡ [] }
    ensures around { OnOk result (found.new.around.items ≡ []) }
    ensures arcs { OnOk result (found.new.arcs.items ≡ found.old.arcs.items ++ arcs_in (design_view machine.now.constants.design.now) machine.now.current machine.now.next [] (body (process_view process.now))) }
    ensures states { OnOk result (found.new.states.items ≡ found.old.states.items ++ states_in (design_view machine.now.constants.design.now) machine.now.current (body (process_view process.now))) }
{
    match process {
        Process::Assign { .. } => Ok(()),
        Process::Comb { body, .. } | Process::Clocked { body, .. } => {
            walk_stmt(machine, body, found)
        }
    }
}
