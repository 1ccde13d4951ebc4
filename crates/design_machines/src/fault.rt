//! What is wrong with a machine that is named.

ghost use Rattle.std.specs.Prelude.{◌≡◌, ◌⊎◌, ◌<◌, IfOk, List, ℕ, length};
ghost use Rattle.design_machines.specs.declared.fault.StateFault.TheVariants as state_fault;
ghost use Rattle.design_machines.specs.Machines.{name_at};

use cov_host::{Name, NoMemory};
use std::alloc::Global;

/// Why the state machines of a design cannot be had.
#[derive(Drop)]
pub enum StateFault {
    NoMemory,
    /// The module, the variable or the parameter of this name is unknown.
    NoState(Name),
    /// The state of this name has the value of a state before it.
    SameState(Name),
    /// The machine of the variable of this name has fewer than two states, or more than `MOST_STATES`.
    TooManyStates(Name),
}

impl From<NoMemory> for StateFault {
    ghost from_gives = { λ _ fault. fault ≡ state_fault.NoMemory };

    fn from(_: NoMemory) -> Self {
        StateFault::NoMemory
    }
}

/// The fault that the name at a place is no parameter.
pub(crate) fn no_parameter(alloc: Global, names: &[Name], place: usize) -> StateFault
    requires { place < length names.now }
    ensures { (result ≡ state_fault.NoMemory) ⊎ (result ≡ state_fault.NoState (name_at names.now place)) }
{
    no_state(alloc, names[place].as_slice())
}

/// The fault that a name is unknown.
pub(crate) fn no_state(alloc: Global, name: &[u8]) -> StateFault
    ensures { (result ≡ state_fault.NoMemory) ⊎ (result ≡ state_fault.NoState name.now) }
{
    match name_of(alloc, name) {
        Ok(name) => StateFault::NoState(name),
        Err(_) => StateFault::NoMemory,
    }
}

/// The fault that the state at a place has the value of one before it.
pub(crate) fn same_state(alloc: Global, names: &[Name], place: usize) -> StateFault
    requires { place < length names.now }
    ensures { (result ≡ state_fault.NoMemory) ⊎ (result ≡ state_fault.SameState (name_at names.now place)) }
{
    match name_of(alloc, names[place].as_slice()) {
        Ok(name) => StateFault::SameState(name),
        Err(_) => StateFault::NoMemory,
    }
}

/// The fault that a variable has too few states, or too many.
pub(crate) fn too_many_states(alloc: Global, name: &[u8]) -> StateFault
    ensures { (result ≡ state_fault.NoMemory) ⊎ (result ≡ state_fault.TooManyStates name.now) }
{
    match name_of(alloc, name) {
        Ok(name) => StateFault::TooManyStates(name),
        Err(_) => StateFault::NoMemory,
    }
}

/// The bytes as a name.
pub(crate) fn name_of(alloc: Global, bytes: &[u8]) -> Result<Name, NoMemory>
    ensures { IfOk result (λ name. name ≡ bytes.now) }
{
    Ok(Name::from_vec(Vec::from_slice(alloc, bytes)?))
}
