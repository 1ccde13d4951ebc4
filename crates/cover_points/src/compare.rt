//! The order of points.

ghost use Rattle.std.specs.Prelude.{◌≡◌};
ghost use Rattle.cover_points.specs.Order.{case_rank, index_cmp, line_cmp, node_cmp, path_at, second_rank, thing_instance, thing_name};
ghost use Rattle.cover_points.specs.MachinePoints.{first_name, machine_cmp, machine_path, machine_rank, machine_variable, second_name, state_name};
ghost use Rattle.design_machines.specs.Machines.{name_at};
ghost use Rattle.design_model.specs.View.{design_view};

use crate::machine_point::MachinePoint;
use crate::points::IndexPoint;
use cov_host::Name;
use design_machines::Machine;
use design_model::{Design, Instance, NodeCase};
use std::cmp::Ordering;
use text_points::{LinePoint, NodePoint};

/// By the path of the instance, and then by number.
pub(crate) fn compare_lines(instances: &[Instance], a: &LinePoint, b: &LinePoint) -> Ordering
    ensures { result ≡ line_cmp instances.now a.now b.now }
{
    path_at(instances, a.instance)
        .cmp(path_at(instances, b.instance))
        .then(a.line.cmp(&b.line))
}

/// By the path of the instance, then by number, and then by case.
pub(crate) fn compare_nodes(instances: &[Instance], a: &NodePoint, b: &NodePoint) -> Ordering
    ensures { result ≡ node_cmp instances.now a.now b.now }
{
    path_at(instances, a.instance)
        .cmp(path_at(instances, b.instance))
        .then(a.node.cmp(&b.node))
        .then(case_rank(a.case).cmp(&case_rank(b.case)))
}

/// The path of the instance with this number.
pub(crate) fn path_at(instances: &[Instance], instance: u32) -> &[u8]
    ensures { result.now ≡ path_at instances.now instance }
{
    match instances.get(instance as usize) {
        Some(instance) => instance.path.as_slice(),
        None => &[],
    }
}

/// The place of a case in the order of the cases, from 0 to 9.
pub fn case_rank(case: NodeCase) -> u8
    ensures { result ≡ case_rank case }
{
    match case {
        NodeCase::ValueFalse => 0,
        NodeCase::ValueTrue => 1,
        NodeCase::LeftFalse => 2,
        NodeCase::RightFalse => 3,
        NodeCase::LeftTrue => 4,
        NodeCase::RightTrue => 5,
        NodeCase::BothFalse => 6,
        NodeCase::FalseTrue => 7,
        NodeCase::TrueFalse => 8,
        NodeCase::BothTrue => 9,
    }
}

/// By the path of the instance, then by name, then by index; of one index the first point before the second.
pub(crate) fn compare_indexes(design: &Design, a: &IndexPoint, b: &IndexPoint) -> Ordering
    ensures { result ≡ index_cmp (design_view design.now) a.now b.now }
{
    let instances = design.instances.as_slice();
    path_at(instances, thing_instance(design, a.thing))
        .cmp(path_at(instances, thing_instance(design, b.thing)))
        .then(thing_name(design, a.thing).cmp(thing_name(design, b.thing)))
        .then(a.index.cmp(&b.index))
        .then(second_rank(a.second).cmp(&second_rank(b.second)))
}

/// The instance of a signal or memory.
fn thing_instance(design: &Design, thing: u32) -> u32
    ensures { result ≡ thing_instance (design_view design.now) thing }
{
    match design.signals.get(thing as usize) {
        Some(signal) => signal.instance,
        None => match design.memories.get(thing as usize - design.signals.len()) {
            Some(memory) => memory.instance,
            None => 0,
        },
    }
}

/// The name of a signal or memory.
fn thing_name(design: &Design, thing: u32) -> &[u8]
    ensures { result.now ≡ thing_name (design_view design.now) thing }
{
    match design.signals.get(thing as usize) {
        Some(signal) => signal.name.as_slice(),
        None => match design.memories.get(thing as usize - design.signals.len()) {
            Some(memory) => memory.name.as_slice(),
            None => &[],
        },
    }
}

/// The place of a point among the two of its index, from 0.
fn second_rank(second: bool) -> u8
    ensures { result ≡ second_rank second }
{
    if second { 1 } else { 0 }
}

/// By the path of the instance, then by variable, then states before arcs, and then by the names of the states.
pub(crate) fn compare_machines(
    instances: &[Instance],
    machines: &[Machine],
    a: &MachinePoint,
    b: &MachinePoint,
) -> Ordering
    ensures { result ≡ machine_cmp instances.now machines.now a.now b.now }
{
    machine_path(instances, machines, *a)
        .cmp(machine_path(instances, machines, *b))
        .then(machine_variable(machines, *a).cmp(machine_variable(machines, *b)))
        .then(machine_rank(*a).cmp(&machine_rank(*b)))
        .then(first_name(machines, *a).cmp(first_name(machines, *b)))
        .then(second_name(machines, *a).cmp(second_name(machines, *b)))
}

/// The path of the instance of a point.
fn machine_path<'a>(
    instances: &'a [Instance],
    machines: &[Machine],
    point: MachinePoint,
) -> &'a [u8]
    ensures { result.now ≡ machine_path instances.now machines.now point }
{
    let (MachinePoint::State { machine, .. } | MachinePoint::Arc { machine, .. }) = point;
    match machines.get(machine as usize) {
        Some(machine) => path_at(instances, machine.instance),
        None => path_at(instances, 0),
    }
}

/// The variable of the machine of a point.
fn machine_variable(machines: &[Machine], point: MachinePoint) -> &[u8]
    ensures { result.now ≡ machine_variable machines.now point }
{
    let (MachinePoint::State { machine, .. } | MachinePoint::Arc { machine, .. }) = point;
    match machines.get(machine as usize) {
        Some(machine) => machine.variable.as_slice(),
        None => &[],
    }
}

/// The place of states before arcs.
fn machine_rank(point: MachinePoint) -> u8
    ensures { result ≡ machine_rank point }
{
    match point {
        MachinePoint::State { .. } => 0,
        MachinePoint::Arc { .. } => 1,
    }
}

/// The name of the state, or of the one that the arc leaves.
fn first_name(machines: &[Machine], point: MachinePoint) -> &[u8]
    ensures { result.now ≡ first_name machines.now point }
{
    match point {
        MachinePoint::State { machine, state } => state_name(machines, machine, state),
        MachinePoint::Arc { machine, from, .. } => state_name(machines, machine, from),
    }
}

/// The name of the state that the arc enters.
fn second_name(machines: &[Machine], point: MachinePoint) -> &[u8]
    ensures { result.now ≡ second_name machines.now point }
{
    match point {
        MachinePoint::State { .. } => &[],
        MachinePoint::Arc { machine, to, .. } => state_name(machines, machine, to),
    }
}

/// The name of a state of a machine.
fn state_name(machines: &[Machine], machine: u32, state: u32) -> &[u8]
    ensures { result.now ≡ state_name machines.now machine state }
{
    match machines.get(machine as usize) {
        Some(machine) => name_at(machine.names.as_slice(), state),
        None => &[],
    }
}

/// The name at a place.
fn name_at(names: &[Name], place: u32) -> &[u8]
    ensures { result.now ≡ name_at names.now place }
{
    match names.get(place as usize) {
        Some(name) => name.as_slice(),
        None => &[],
    }
}
