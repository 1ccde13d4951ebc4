ghost use Rattle.std.specs.Prelude.{◌≡◌, [], ◌∷◌, ◌++◌, true, IfOk, OnErr, OnOk};

use crate::tree::Process;
use cov_host::{Name, NoMemory, Sequence};
use four_state::Four;
use std::alloc::Global;

/// A design after elaboration, without hierarchy.
pub struct Design {
    /// The name of the top module.
    pub top: Name,
    /// The top instance first, and then those below it in order of declaration.
    pub instances: Sequence<Instance>,
    /// In order of declaration. A signal goes by its place in this list.
    pub signals: Sequence<Signal>,
    /// In order of declaration. A memory goes by the number of signals and its place in this list.
    pub memories: Sequence<Memory>,
    /// In order of declaration. A process goes by its place in this list.
    pub processes: Sequence<Process>,
    /// The parameters.
    pub constants: Sequence<Constant>,
    /// The ports that go by the signal they are joined to.
    pub aliases: Sequence<Alias>,
}

// Written out so that a crate which lets one go does not prove again how each of its parts is let go.
impl Drop for Design {
    fn drop(self) {
        let Design {
            top: _,
            instances: _,
            signals: _,
            memories: _,
            processes: _,
            constants: _,
            aliases: _,
        } = self;
    }
}

impl Design {
    ghost use Rattle.design_model.specs.Design.{is_number, path_in, path_of};
    ghost use Rattle.design_model.specs.View.{design_view};

    /// The path of a signal or memory: that of its instance, a dot and its name.
    pub fn path(&self, alloc: Global, thing: u32) -> Result<Name, NoMemory>
        requires { is_number (design_view self.now) thing ≡ true }
        ensures { IfOk result (λ path. path ≡ path_of (design_view self.now) thing) }
    {
        match self.signals.get(thing as usize) {
            Some(signal) => self.path_in(alloc, signal.instance, &signal.name),
            None => match self.memories.get(thing as usize - self.signals.len()) {
                Some(memory) => self.path_in(alloc, memory.instance, &memory.name),
                None => unreachable!(),
            },
        }
    }

    /// Adds a process after the others. After a refusal nothing has changed.
    pub fn add_process(&mut self, process: Process) -> Result<(), NoMemory>
        ensures ok { OnOk result (self.new ≡ record self.old { processes = self.old.processes ++ process ∷ [] }) }
        ensures err { OnErr result (self.new ≡ self.old) }
    {
        self.processes.push(process)
    }

    /// The path of a name in an instance.
    fn path_in(&self, alloc: Global, instance: u32, name: &Name) -> Result<Name, NoMemory>
        ensures { IfOk result (λ path. path ≡ path_in (design_view self.now) instance name.now) }
    {
        match self.instances.get(instance as usize) {
            Some(instance) => joined(alloc, instance.path.as_slice(), name.as_slice()),
            None => joined(alloc, &[], name.as_slice()),
        }
    }
}

/// Two names with a dot between them.
fn joined(alloc: Global, path: &[u8], name: &[u8]) -> Result<Name, NoMemory>
    ensures { IfOk result (λ joined. joined ≡ path.now ++ 46 ∷ name.now) }
{
    let mut bytes = Vec::from_slice(alloc, path)?;
    bytes.push(b'.')?;
    bytes.extend_from_slice(name)?;
    Ok(Name::from_vec(bytes))
}

/// An instance of a module.
#[derive(Drop)]
pub struct Instance {
    /// The names from the top module's down to its own, joined by dots.
    pub path: Name,
    /// The name of its module.
    pub module: Name,
}

/// A declared range of bits or words, `[high:low]`, in either direction (IEEE 1364-2001, 3.3).
#[derive(Clone, Copy)]
pub struct Range {
    /// The left bound.
    pub high: u32,
    /// The right bound.
    pub low: u32,
}

/// A net or a variable (IEEE 1364-2001, 3.2).
#[derive(Drop)]
pub struct Signal {
    /// The place of its instance in the design's list.
    pub instance: u32,
    /// Its name in its module.
    pub name: Name,
    /// The left bound of its range as declared, 0 without one.
    pub high: u32,
    /// The right bound of its range as declared, 0 without one.
    pub low: u32,
    /// Whether it was declared with a range.
    pub ranged: bool,
    /// Its number of bits, from 1 to 128.
    pub width: u8,
    /// Whether it is declared as signed.
    pub signed: bool,
    /// Whether it is an input of the top module.
    pub input: bool,
}

/// A memory: an array of one dimension (IEEE 1364-2001, 3.10).
#[derive(Drop)]
pub struct Memory {
    /// The place of its instance in the design's list.
    pub instance: u32,
    /// Its name in its module.
    pub name: Name,
    /// The left bound of the range of its words as declared.
    pub first: u32,
    /// The right bound of the range of its words as declared.
    pub last: u32,
    /// The left bound of the range of a word as declared, 0 without one.
    pub high: u32,
    /// The right bound of the range of a word as declared, 0 without one.
    pub low: u32,
    /// Whether a word was declared with a range.
    pub ranged: bool,
    /// The number of bits of a word, from 1 to 128.
    pub width: u8,
    /// Whether its words are signed.
    pub signed: bool,
}

/// A parameter with its value (IEEE 1364-2001, 3.11).
#[derive(Drop)]
pub struct Constant {
    /// The place of its instance in the design's list.
    pub instance: u32,
    /// Its name in its module.
    pub name: Name,
    /// Its value.
    pub value: Four,
}

/// A port that is another name of a signal (IEEE 1364-2001, 12.3).
#[derive(Drop)]
pub struct Alias {
    /// The place of the port's instance in the design's list.
    pub instance: u32,
    /// The name of the port.
    pub name: Name,
    /// The signal that it names.
    pub signal: u32,
}
