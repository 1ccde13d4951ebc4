//! The states and arcs of the state machines of a design.

ghost use Rattle.std.specs.Prelude.{◌≡◌, ◌↔◌, ◌++◌, List, IfOk, OnOk, map};
ghost use Rattle.std.specs.List.{dedup, flat_map, range_with_len};
ghost use Rattle.std.specs.List.Sorted.{IsPermutation, IsSorted, IsStrictlySortedBy};
ghost use Rattle.std.specs.Ordering.{eq_by_cmp};
ghost use Rattle.design_model.specs.Design.{In};
ghost use Rattle.design_model.specs.Lawful.{IsLawfulDesign};
ghost use Rattle.design_model.specs.View.{design_view};
ghost use Rattle.design_model.specs.declared.point.Point.{Point};
ghost use Rattle.design_machines.specs.Drawn.{AreAllMachines};
ghost use Rattle.design_machines.specs.state_machines.Drawn.{AreDrawable, IsPointWith};
ghost use Rattle.design_machines.specs.state_machines.Machines.{StateMachines};
ghost use Rattle.cover_points.specs.Listed.{IsPlaced};
ghost use Rattle.cover_points.specs.declared.machine_point.MachinePoint.{MachinePoint as TheMachinePoint};
ghost use Rattle.cover_points.specs.MachinePoints.{IsOfMachine, arc_to, arcs_from, arcs_of, machine_cmp, machine_view, points_of_machine, states_of};
ghost use Rattle.cover_points.specs.Texts.{each_from};

use crate::compare::compare_machines;
use crate::machine_point::MachinePoint;
use crate::things::number_of;
use cov_host::NoMemory;
use design_machines::Machine;
use design_model::{Design, Instance};
use std::alloc::Global;

/// The states and arcs of machines, each once, in their order.
pub fn machine_points(
    alloc: Global,
    design: &Design,
    machines: &[Machine],
) -> Result<Vec<MachinePoint>, NoMemory>
    requires { IsLawfulDesign (design_view design.now) }
    ensures rise { IfOk result (λ points. IsStrictlySortedBy (machine_cmp design.now.instances machines.now) points.items) }
    ensures placed { (ms : StateMachines) → AreAllMachines (design_view design.now) ms machines.now → IfOk result (λ points. (p : TheMachinePoint) → In p points.items → IsPlaced machines.now p) }
    ensures members { (ms : StateMachines) → AreDrawable (design_view design.now) ms → AreAllMachines (design_view design.now) ms machines.now → IfOk result (λ points. (x : Point) → IsOfMachine x → In x (map (machine_view machines.now) points.items) ↔ IsPointWith (design_view design.now) ms x) }
{
    let instances = design.instances.as_slice();
    let mut found = found_points(alloc, machines)?;
    sort_points(instances, machines, &mut found)?;
    keep_first_points(instances, machines, &mut found);
    Ok(found)
}

/// The states and arcs of machines, in the order of the machines.
fn found_points(alloc: Global, machines: &[Machine]) -> Result<Vec<MachinePoint>, NoMemory>
    ensures { IfOk result (λ found. found.items ≡ each_from points_of_machine 0 machines.now) }
{
    let mut found = Vec::new(alloc);
    for (number, machine) in machines.iter().enumerate() {
        push_points(number, machine, &mut found)?;
    }
    Ok(found)
}

/// Adds the states and arcs of a machine with its number.
fn push_points(
    number: usize,
    machine: &Machine,
    found: &mut Vec<MachinePoint>,
) -> Result<(), NoMemory>
    ensures { OnOk result (found.new.items ≡ found.old.items ++ points_of_machine number machine.now) }
{
    let count = number_of(0, machine.names.len())?;
    let leaving = number_of(0, machine.leaving)?;
    push_machine(number_of(0, number)?, leaving, count, found)
}

/// Adds the states of a machine, and then its arcs.
fn push_machine(
    machine: u32,
    leaving: u32,
    count: u32,
    found: &mut Vec<MachinePoint>,
) -> Result<(), NoMemory>
    ensures { OnOk result (found.new.items ≡ found.old.items ++ (states_of machine count ++ arcs_of machine leaving count)) }
{
    push_states(machine, count, found)?;
    push_arcs(machine, leaving, count, found)
}

/// Adds the states of a machine.
fn push_states(machine: u32, count: u32, found: &mut Vec<MachinePoint>) -> Result<(), NoMemory>
    ensures { OnOk result (found.new.items ≡ found.old.items ++ states_of machine count) }
{
    for state in 0..count {
        found.push(MachinePoint::State { machine, state })?;
    }
    Ok(())
}

/// Adds the arcs of a machine that leave its first states, so many.
fn push_arcs(
    machine: u32,
    leaving: u32,
    count: u32,
    found: &mut Vec<MachinePoint>,
) -> Result<(), NoMemory>
    ensures { OnOk result (found.new.items ≡ found.old.items ++ arcs_of machine leaving count) }
{
    for from in 0..leaving {
        push_arcs_from(machine, count, from, found)?;
    }
    Ok(())
}

/// Adds the arcs of a machine that leave one state.
fn push_arcs_from(
    machine: u32,
    count: u32,
    from: u32,
    found: &mut Vec<MachinePoint>,
) -> Result<(), NoMemory>
    ensures { OnOk result (found.new.items ≡ found.old.items ++ arcs_from machine count from) }
{
    for to in 0..count {
        push_arc(machine, from, to, found)?;
    }
    Ok(())
}

/// Adds the arc from one state to another; none from a state to itself.
fn push_arc(machine: u32, from: u32, to: u32, found: &mut Vec<MachinePoint>) -> Result<(), NoMemory>
    ensures { OnOk result (found.new.items ≡ found.old.items ++ arc_to machine from to) }
{
    if from != to {
        found.push(MachinePoint::Arc { machine, from, to })?;
    }
    Ok(())
}

/// Sorts the points of machines.
fn sort_points(
    instances: &[Instance],
    machines: &[Machine],
    found: &mut Vec<MachinePoint>,
) -> Result<(), NoMemory>
    ensures permutation { IsPermutation found.old.items found.new.items }
    ensures sorted { OnOk result (IsSorted (machine_cmp instances.now machines.now) found.new.items) }
{
    found.sort_by(|a, b| compare_machines(instances, machines, a, b))?;
    Ok(())
}

/// Drops each point that is equal in the order to the one before it.
fn keep_first_points(instances: &[Instance], machines: &[Machine], found: &mut Vec<MachinePoint>)
    ensures { found.new.items ≡ dedup (eq_by_cmp (machine_cmp instances.now machines.now)) found.old.items }
{
    found.dedup_by(|a, b| compare_machines(instances, machines, a, b).is_eq());
}
