ghost use Rattle.std.specs.Prelude.{◌≡◌, ◌<◌, ◌++◌, ◌∷◌, [], ℕ, Err, IfNone, IfOk, IfSome, OnOk, length};
ghost use Rattle.std.specs.List.{AllZip};
ghost use Rattle.design_model.specs.Lawful.{IsLawfulDesign};
ghost use Rattle.design_model.specs.Points.{IsNameOf, IsStateValue};
ghost use Rattle.design_model.specs.View.{design_view};
ghost use Rattle.state_machines.specs.Lookups.{IsAliasAt};
ghost use Rattle.state_machines.specs.Values.{IsFirstNoParameter, IsNamedSignal, IsNoParameter};
ghost use Rattle.state_machines.specs.declared.machine.MachineFault.TheVariants as machine_fault;

use crate::lookups::{alias_place, constant_place, signal_place};
use cov_host::{Name, NoMemory};
use design_model::Design;
use four_state::Four;
use std::alloc::Global;

/// Why a machine has no states in an instance.
#[derive(Clone, Copy)]
pub enum MachineFault {
    NoMemory,
    /// The variable is no signal of the instance.
    NoVariable,
    /// The name at this place, the first such one, is no parameter of the instance.
    NoParameter { place: usize },
}

impl From<NoMemory> for MachineFault {
    ghost from_gives = { λ _ fault. fault ≡ machine_fault.NoMemory };

    fn from(_: NoMemory) -> Self {
        MachineFault::NoMemory
    }
}

/// A machine in an instance.
#[derive(Drop)]
pub struct InstanceMachine {
    /// The number of its signal.
    pub signal: u32,
    /// The values of its states in the width of the signal, in the order of their names.
    pub values: Vec<Four>,
}

/// The number of the signal that a name in an instance is, also as an alias.
pub fn signal_named(design: &Design, instance: u32, name: &[u8]) -> Option<u32>
    requires { IsLawfulDesign (design_view design.now) }
    ensures some { IfSome result (IsNamedSignal (design_view design.now) instance name.now) }
    ensures none { IfNone result ((s : ℕ) → IsNameOf (design_view design.now) instance name.now s → ⊥) }
{
    match signal_place(design.signals.as_slice(), instance, name) {
        Some(place) => Some(place as u32),
        None => aliased_signal(design, instance, name),
    }
}

/// The number of the signal that an alias in an instance goes by.
fn aliased_signal(design: &Design, instance: u32, name: &[u8]) -> Option<u32>
    requires { IsLawfulDesign (design_view design.now) }
    ensures some { IfSome result (IsNamedSignal (design_view design.now) instance name.now) }
    ensures none { IfNone result ((k : ℕ) → IsAliasAt design.now.aliases instance name.now k → ⊥) }
{
    let aliases = design.aliases.as_slice();
    match alias_place(aliases, instance, name) {
        Some(place) => Some(aliases[place].signal),
        None => None,
    }
}

/// The value of the parameter with a name in an instance, as a value of a signal.
pub fn state_value(design: &Design, instance: u32, signal: u32, name: &[u8]) -> Option<Four>
    requires lawful { IsLawfulDesign (design_view design.now) }
    requires listed { signal < length design.now.signals }
    ensures some { IfSome result (IsStateValue (design_view design.now) instance signal name.now) }
    ensures none { IfNone result (IsNoParameter (design_view design.now) instance name.now) }
{
    let constants = design.constants.as_slice();
    match constant_place(constants, instance, name) {
        Some(place) => {
            let signal = &design.signals.as_slice()[signal as usize];
            Some(constants[place].value.extend(signal.width, signal.signed))
        }
        None => None,
    }
}

/// The values of the parameters with these names in an instance, as values of a signal.
pub fn state_values(
    alloc: Global,
    design: &Design,
    instance: u32,
    signal: u32,
    names: &[Name],
) -> Result<Vec<Four>, MachineFault>
    requires lawful { IsLawfulDesign (design_view design.now) }
    requires listed { signal < length design.now.signals }
    ensures values { IfOk result (λ values. AllZip (IsStateValue (design_view design.now) instance signal) names.now values.items) }
    ensures no_parameter { (place : ℕ) → result ≡ Err (MachineFault.NoParameter place) → IsFirstNoParameter (design_view design.now) instance names.now place }
    ensures variable { result ≡ Err MachineFault.NoVariable → ⊥ }
{
    let mut values = Vec::new(alloc);
    for (place, name) in names.iter().enumerate() {
        match state_value(design, instance, signal, name.as_slice()) {
            Some(value) => add(&mut values, value)?,
            None => return Err(MachineFault::NoParameter { place }),
        }
    }
    Ok(values)
}

/// Adds a value.
fn add(values: &mut Vec<Four>, value: Four) -> Result<(), NoMemory>
    ensures { OnOk result (values.new.items ≡ values.old.items ++ value ∷ []) }
{
    values.push(value)?;
    Ok(())
}

/// The signal of a machine in an instance, and the values of its states.
pub fn machine_in(
    alloc: Global,
    design: &Design,
    instance: u32,
    variable: &[u8],
    names: &[Name],
) -> Result<InstanceMachine, MachineFault>
    requires { IsLawfulDesign (design_view design.now) }
    ensures signal { IfOk result (λ machine. IsNamedSignal (design_view design.now) instance variable.now machine.signal) }
    ensures values { IfOk result (λ machine. AllZip (IsStateValue (design_view design.now) instance machine.signal) names.now machine.values.items) }
    ensures no_variable { result ≡ Err MachineFault.NoVariable → (s : ℕ) → IsNameOf (design_view design.now) instance variable.now s → ⊥ }
    ensures no_parameter { (place : ℕ) → result ≡ Err (MachineFault.NoParameter place) → IsFirstNoParameter (design_view design.now) instance names.now place }
    ensures named { (place : ℕ) → result ≡ Err (MachineFault.NoParameter place) → (s : ℕ) × IsNamedSignal (design_view design.now) instance variable.now s }
{
    let Some(signal) = signal_named(design, instance, variable) else {
        return Err(MachineFault::NoVariable);
    };
    match state_values(alloc, design, instance, signal, names) {
        Ok(values) => Ok(InstanceMachine { signal, values }),
        Err(fault) => Err(fault),
    }
}
