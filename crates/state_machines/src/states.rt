ghost use Rattle.std.specs.Prelude.{◌≡◌, ◌↔◌, ◌<◌, ◌++◌, ◌∷◌, [], IfOk, IfSome, IsSome, OnErr, OnOk, length, slice_index_or};
ghost use Rattle.state_machines.specs.Machines.{drawn_of, machine_of, no_machine, no_machines, with_machine};
ghost use Rattle.state_machines.specs.Seen.{machine_seen};

use crate::Drawn;
use crate::drawn::drawn_of;
use crate::names::names_of;
use cov_host::{Name, NoMemory, Words};
use four_state::Four;
use indexmap::IndexMap;
use std::alloc::Global;
use std::marker::Model;

/// A variable of a module.
#[derive(Drop, PartialEq, Eq, Hash)]
struct Variable {
    module: Vec<u8>,
    name: Vec<u8>,
}

/// A machine that is named by words.
#[derive(Clone, Copy)]
pub struct NamedMachine<'a> {
    pub module: &'a [u8],
    pub variable: &'a [u8],
    /// The parameters that are its states.
    pub names: &'a [Name],
}

/// State machines, in the order in which their variables were first named, and what is drawn, in the order of the calls.
#[derive(Drop)]
pub struct States {
    alloc: Global,
    machines: IndexMap<Variable, Vec<Name>>,
    drawn: Vec<Drawn>,
}

impl Model for States {
    ghost use Rattle.state_machines.specs.Machines.{StateMachines};

    ghost Value = { StateMachines };

    ghost use Rattle.state_machines.specs.Entries.{machines_in};

    ghost view = { λ s. record { named = machines_in s.machines.entries; drawn = s.drawn.items } };
}

impl States {
    /// No machine yet. It takes no memory.
    pub fn new(alloc: Global) -> Self
        ensures { result ≡ no_machines }
    {
        States {
            alloc,
            machines: IndexMap::new(alloc),
            drawn: Vec::new(alloc),
        }
    }

    /// Adds a machine. One of the same module and variable takes the place of the earlier. After a refusal nothing has
    /// changed.
    pub fn add(&mut self, of_module: &str, variable: &str, names: &Words) -> Result<(), NoMemory>
        ensures named { OnOk result (self.new.named ≡ with_machine (machine_of of_module.now variable.now names.now) self.old.named) }
        ensures drawn { OnOk result (self.new.drawn ≡ self.old.drawn) }
        ensures err { OnErr result (self.new ≡ self.old) }
    {
        let variable = variable_of(self.alloc, of_module, variable)?;
        let names = names_of(self.alloc, names)?;
        let _ = self.machines.insert(variable, names)?;
        Ok(())
    }

    /// Draws a state, where the values are equal, or else two states and the arc from the first to the second: of a signal by its name in an
    /// instance. After a refusal nothing has changed.
    pub fn draw(
        &mut self,
        instance: u32,
        name: &str,
        signal: u32,
        from: &Four,
        to: &Four,
    ) -> Result<(), NoMemory>
        ensures drawn { OnOk result (self.new.drawn ≡ self.old.drawn ++ drawn_of instance name.now signal from.now to.now ∷ []) }
        ensures named { OnOk result (self.new.named ≡ self.old.named) }
        ensures err { OnErr result (self.new ≡ self.old) }
    {
        let drawn = drawn_of(self.alloc, instance, name, signal, from, to)?;
        self.drawn.push(drawn)?;
        Ok(())
    }

    /// What is drawn, in the order of the calls.
    pub fn drawn(&self) -> &[Drawn]
        ensures { result.now ≡ self.now.drawn }
    {
        self.drawn.as_slice()
    }

    /// How many machines are named.
    pub fn len(&self) -> usize
        ensures { result ≡ length self.now.named }
    {
        self.machines.len()
    }

    /// The named machine at a place, counted from 0.
    pub fn get(&self, place: usize) -> Option<NamedMachine<'_>>
        ensures there { IsSome result ↔ (place < length self.now.named) }
        ensures machine { IfSome result (λ machine. machine_seen machine ≡ slice_index_or self.now.named place no_machine) }
    {
        match self.machines.get_index(place) {
            Some((variable, names)) => Some(NamedMachine {
                module: variable.module.as_slice(),
                variable: variable.name.as_slice(),
                names: names.as_slice(),
            }),
            None => None,
        }
    }
}

/// The variable with this name in a module.
fn variable_of(alloc: Global, of_module: &str, name: &str) -> Result<Variable, NoMemory>
    ensures { IfOk result (λ variable. (variable.module.items ≡ of_module.now) × (variable.name.items ≡ name.now)) }
{
    Ok(Variable {
        module: Vec::from_slice(alloc, of_module.as_bytes())?,
        name: Vec::from_slice(alloc, name.as_bytes())?,
    })
}
