//! Which declared names of an instance are signals and memories of its own.

ghost use Rattle.std.specs.Prelude.{◌≡◌, [], ◌∷◌, IfOk, OnOk};
ghost use Rattle.elab_declarations.specs.DeclarationView.{declaration_view};
ghost use Rattle.elab_instances.specs.Behind.{or_bound};
ghost use Rattle.elab_instances.specs.InstanceView.{alias_view, aliases_view, instantiation_view};
ghost use Rattle.elab_instances.specs.Linked.{linked_of, links_view};
ghost use Rattle.elab_instances.specs.Roles as spec;
ghost use Rattle.elab_scope.specs.NameMap.{bound_to};
ghost use Rattle.flat_design.specs.Declarations.{an_integer};
ghost use Rattle.flat_design.specs.Instances.{alias_number};

use crate::instantiation::{Instantiation, PortAlias};
use crate::used::Uses;
use cov_host::{Name, NoMemory};
use design_model::Range;
use elab_declarations::{Declaration, Sort};
use elab_scope::NameMap;
use std::alloc::Global;

/// What a declared name is in an instance.
#[derive(Clone, Copy, Drop)]
pub enum Role {
    /// A signal of its own.
    Own,
    /// A port that goes by the outer signal of this number.
    Joined(u32),
    /// A memory, with the range of its words.
    Memory(Range),
    /// An integer that is no signal.
    LoopVariable,
    /// The name of an instance.
    Instance,
    /// A parameter, or its declaration has a fault.
    Faulty,
}

/// What decides which names of an instance are signals: which integers are signals, and which ports go by outer ones.
#[derive(Drop)]
pub struct Links<'a> {
    uses: Uses<'a>,
    aliases: NameMap<u32>,
}

impl<'a> Links<'a> {
    /// Those of an instance.
    pub(crate) fn new(alloc: Global, given: &Instantiation<'a>) -> Result<Links<'a>, NoMemory>
        ensures { IfOk result (λ links. links_view links ≡ linked_of (instantiation_view given.now)) }
    {
        Ok(Links {
            uses: Uses::new(alloc, given.module)?,
            aliases: outer_signals(alloc, &given.aliases)?,
        })
    }

    /// The outer signal that a port is joined to.
    pub fn outer(&self, port: &Name) -> Option<u32>
        ensures { result ≡ (links_view self.now).outer port.now }
    {
        self.aliases.get(port.as_slice()).copied()
    }

    /// What a declared name is (IEEE 1364-2001 clauses 3.2, 3.9 and 3.10).
    pub fn role(&self, declaration: &Declaration) -> Role
        ensures { result ≡ spec.role_of (links_view self.now) (declaration_view declaration.now) }
    {
        let name = &declaration.name.name;
        match declaration.sort {
            Sort::Net | Sort::Variable => self.signal(name),
            Sort::Memory(words) => Role::Memory(words),
            Sort::Integer => self.integer(name),
            Sort::Instance => Role::Instance,
            Sort::Parameter | Sort::Faulty | Sort::FaultyMemory => Role::Faulty,
        }
    }

    /// An integer, which is a signal where it is named so.
    fn integer(&self, name: &Name) -> Role
        ensures { result ≡ spec.sort_role ((links_view self.now).outer name.now) ((links_view self.now).named name.now) an_integer }
    {
        if self.uses.is_named_signal(name.as_slice()) {
            self.signal(name)
        } else {
            Role::LoopVariable
        }
    }

    /// A signal by this name.
    fn signal(&self, name: &Name) -> Role
        ensures { result ≡ spec.signal_role ((links_view self.now).outer name.now) }
    {
        match self.outer(name) {
            Some(number) => Role::Joined(number),
            None => Role::Own,
        }
    }
}

/// The outer signals that ports are joined to; of a port that is listed twice the first counts.
fn outer_signals(alloc: Global, aliases: &[PortAlias]) -> Result<NameMap<u32>, NoMemory>
    ensures { IfOk result (λ signals. bound_to signals ≡ alias_number (aliases_view aliases.now)) }
{
    let mut signals = NameMap::new(alloc);
    for alias in aliases {
        note(&mut signals, alias)?;
    }
    Ok(signals)
}

/// Notes the outer signal of a port, unless one is noted.
fn note(signals: &mut NameMap<u32>, alias: &PortAlias) -> Result<(), NoMemory>
    ensures { OnOk result (bound_to signals.new ≡ or_bound (bound_to signals.old) (alias_view alias.now ∷ [])) }
{
    if signals.get(alias.port).is_some() {
        return Ok(());
    }
    signals.insert(alias.port, alias.signal)
}
