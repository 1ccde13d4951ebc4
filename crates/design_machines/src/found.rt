//! A machine in all instances of its module.

ghost use Rattle.std.specs.Prelude.{◌≡◌, ◌⊎◌, ◌↔◌, ◌++◌, ◌∷◌, [], ◌<◌, ℕ, List, Err, IsTrue, OnOk, length};
ghost use Rattle.state_machines.specs.design_model.Lawful.{IsLawfulDesign};
ghost use Rattle.state_machines.specs.design_model.Points.{IsInstanceOf};
ghost use Rattle.state_machines.specs.design_model.View.{design_view};
ghost use Rattle.state_machines.specs.Seen.{machine_seen};
ghost use Rattle.design_machines.specs.Faults.{IsFaultOf};
ghost use Rattle.design_machines.specs.Machines.{AreMachinesBelow, IsCounted, IsOfModule};
ghost use Rattle.design_machines.specs.declared.fault.StateFault.{StateFault as TheFault};
ghost use Rattle.design_machines.specs.declared.fault.StateFault.TheVariants as state_fault;
ghost use Rattle.design_machines.specs.declared.machine.Machine.{Machine as TheMachine};

use crate::fault::{no_state, too_many_states};
use crate::machine::machine_at;
use crate::{Machine, StateFault};
use cov_host::NoMemory;
use state_machines::{Design, Instance, NamedMachine};
use std::alloc::Global;

/// The greatest number of states of a machine.
pub const MOST_STATES: usize = 64;

/// Adds a machine, once for each instance of its module.
pub(crate) fn push_machines(
    alloc: Global,
    design: &Design,
    named: &NamedMachine<'_>,
    found: &mut Vec<Machine>,
) -> Result<(), StateFault>
    requires lawful { IsLawfulDesign (design_view design.now) }
    ensures counted { OnOk result (IsCounted (machine_seen named.now)) }
    ensures placed { OnOk result ((i : ℕ) × IsInstanceOf (design_view design.now) i named.now.«module».now) }
    ensures machines { OnOk result ((xs : List TheMachine) × (found.new.items ≡ found.old.items ++ xs) × AreMachinesBelow (design_view design.now) (machine_seen named.now) (length design.now.instances) xs) }
    ensures fault { (fault : TheFault) → result ≡ Err fault → (fault ≡ state_fault.NoMemory) ⊎ IsFaultOf (design_view design.now) (machine_seen named.now) fault }
{
    if !is_counted(named) {
        return Err(too_many_states(alloc, named.variable));
    }
    let instances = design.instances.as_slice();
    if !has_instance(instances, named.module) {
        return Err(no_state(alloc, named.module));
    }
    for number in 0..instances.len() {
        if is_of_module(instances, number, named.module) {
            add(machine_at(alloc, design, number as u32, named)?, found)?;
        }
    }
    Ok(())
}

/// Adds a machine.
fn add(machine: Machine, found: &mut Vec<Machine>) -> Result<(), NoMemory>
    ensures { OnOk result (found.new.items ≡ found.old.items ++ machine ∷ []) }
{
    found.push(machine)?;
    Ok(())
}

/// Whether a machine has neither too few states nor too many.
fn is_counted(named: &NamedMachine<'_>) -> bool
    ensures { IsTrue result ↔ IsCounted (machine_seen named.now) }
{
    2 <= named.names.len() && named.names.len() <= MOST_STATES
}

/// Whether some instance is of a module.
fn has_instance(instances: &[Instance], module_name: &[u8]) -> bool
    ensures { IsTrue result ↔ ((number : ℕ) × IsOfModule instances.now number module_name.now) }
{
    for number in 0..instances.len() {
        if is_of_module(instances, number, module_name) {
            return true;
        }
    }
    false
}

/// Whether an instance is of a module.
fn is_of_module(instances: &[Instance], number: usize, module_name: &[u8]) -> bool
    requires { number < length instances.now }
    ensures { IsTrue result ↔ IsOfModule instances.now number module_name.now }
{
    instances[number].module.as_slice() == module_name
}
