//! A state machine in an instance.

ghost use Rattle.std.specs.Prelude.{◌≡◌, ◌⊎◌, Err, IfOk, length};
ghost use Rattle.std.specs.List.{AllZip};
ghost use Rattle.state_machines.specs.design_model.Lawful.{IsLawfulDesign};
ghost use Rattle.state_machines.specs.design_model.Points.{IsInstanceOf, IsStateValue};
ghost use Rattle.state_machines.specs.design_model.View.{design_view};
ghost use Rattle.state_machines.specs.Seen.{machine_seen};
ghost use Rattle.state_machines.specs.Values.{IsNamedSignal};
ghost use Rattle.design_machines.specs.Faults.{IsFaultIn};
ghost use Rattle.design_machines.specs.Machines.{IsMachineOf};
ghost use Rattle.design_machines.specs.declared.fault.StateFault.{StateFault as TheFault};
ghost use Rattle.design_machines.specs.declared.fault.StateFault.TheVariants as state_fault;

use crate::StateFault;
use crate::fault::{name_of, no_parameter, no_state, same_state};
use cov_host::{Name, NoMemory, Sequence};
use four_state::Four;
use state_machines::{Design, InstanceMachine, MachineFault, NamedMachine, first_same, machine_in};
use std::alloc::Global;

/// A state machine in an instance of its module.
#[derive(Drop)]
pub struct Machine {
    /// The number of the instance.
    pub instance: u32,
    /// The variable, by the name that the module uses.
    pub variable: Name,
    /// The number of the signal that the variable is.
    pub signal: u32,
    /// The names of its states, in the order in which they were given.
    pub names: Sequence<Name>,
    /// The values of its states in the width of the signal, in the order of their names. No two are the same.
    pub values: Sequence<Four>,
    /// How many of its states, from the first on, an arc leaves. It leads to each other state.
    pub leaving: usize,
}

/// The machine in an instance.
pub(crate) fn machine_at(
    alloc: Global,
    design: &Design,
    instance: u32,
    named: &NamedMachine<'_>,
) -> Result<Machine, StateFault>
    requires lawful { IsLawfulDesign (design_view design.now) }
    requires instance { IsInstanceOf (design_view design.now) instance named.now.«module».now }
    ensures machine { IfOk result (λ machine. IsMachineOf (design_view design.now) (machine_seen named.now) machine × (machine.instance ≡ instance)) }
    ensures fault { (fault : TheFault) → result ≡ Err fault → (fault ≡ state_fault.NoMemory) ⊎ IsFaultIn (design_view design.now) (machine_seen named.now) instance fault }
{
    match machine_in(alloc, design, instance, named.variable, named.names) {
        Ok(found) => apart_machine(alloc, design, instance, named, found),
        Err(MachineFault::NoMemory) => Err(StateFault::NoMemory),
        Err(MachineFault::NoVariable) => Err(no_state(alloc, named.variable)),
        Err(MachineFault::NoParameter { place }) => Err(no_parameter(alloc, named.names, place)),
    }
}

/// The machine that was found in an instance, if no two of its states have one value.
fn apart_machine(
    alloc: Global,
    design: &Design,
    instance: u32,
    named: &NamedMachine<'_>,
    found: InstanceMachine,
) -> Result<Machine, StateFault>
    requires lawful { IsLawfulDesign (design_view design.now) }
    requires instance { IsInstanceOf (design_view design.now) instance named.now.«module».now }
    requires signal { IsNamedSignal (design_view design.now) instance named.now.variable.now found.signal }
    requires values { AllZip (IsStateValue (design_view design.now) instance found.signal) named.now.names.now found.values.items }
    ensures machine { IfOk result (λ machine. IsMachineOf (design_view design.now) (machine_seen named.now) machine × (machine.instance ≡ instance)) }
    ensures fault { (fault : TheFault) → result ≡ Err fault → (fault ≡ state_fault.NoMemory) ⊎ IsFaultIn (design_view design.now) (machine_seen named.now) instance fault }
{
    let width = design.signals.as_slice()[found.signal as usize].width;
    match first_same(found.values.as_slice(), width) {
        Some(place) => Err(same_state(alloc, named.names, place)),
        None => Ok(whole_machine(alloc, instance, named, found)?),
    }
}

/// The machine that was found, with its names.
fn whole_machine(
    alloc: Global,
    instance: u32,
    named: &NamedMachine<'_>,
    found: InstanceMachine,
) -> Result<Machine, NoMemory>
    ensures { IfOk result (λ machine. (machine.instance ≡ instance) × (machine.variable ≡ named.now.variable.now) × (machine.signal ≡ found.signal) × (machine.names ≡ named.now.names.now) × (machine.values ≡ found.values.items) × (machine.leaving ≡ length machine.names)) }
{
    Ok(Machine {
        instance,
        variable: name_of(alloc, named.variable)?,
        signal: found.signal,
        names: Sequence::from_vec(copies_of(alloc, named.names)?),
        values: Sequence::from_vec(found.values),
        leaving: named.names.len(),
    })
}

/// Copies of names.
fn copies_of(alloc: Global, names: &[Name]) -> Result<Vec<Name>, NoMemory>
    ensures { IfOk result (λ copies. copies.items ≡ names.now) }
{
    let mut copies = Vec::new(alloc);
    for name in names {
        copies.push(name_of(alloc, name.as_slice())?)?;
    }
    Ok(copies)
}
