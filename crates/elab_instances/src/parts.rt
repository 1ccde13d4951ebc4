//! What an opened instance adds to the lists of the design.

ghost use Rattle.std.specs.Prelude.{◌≡◌, ◌++◌, filter, flat_map, map, IfOk, OnOk};
ghost use Rattle.elab_declarations.specs.Constants.{bound_view};
ghost use Rattle.elab_declarations.specs.DeclarationBounds.{IsInBounds};
ghost use Rattle.elab_declarations.specs.DeclarationView.{declaration_view};
ghost use Rattle.elab_instances.specs.InstanceView.{instantiation_view};
ghost use Rattle.elab_instances.specs.Linked.{links_view};
ghost use Rattle.elab_instances.specs.Parts.{own_memories, own_signals};
ghost use Rattle.flat_design.specs.Instances as of;

use crate::opening::Opened;
use crate::roles::{Links, Role};
use cov_host::{Name, NoMemory, Sequence};
use design_model::{Alias, Constant, Memory, Range, Signal};
use elab_declarations::{BoundParam, Declaration};
use elab_scope::{range_or, span};
use flat_design::Entry;
use std::alloc::Global;

/// Adds the own signals of an instance with this number, in order of declaration.
pub fn push_signals(
    alloc: Global,
    opened: &Opened,
    number: u32,
    signals: &mut Sequence<Signal>,
) -> Result<(), NoMemory>
    ensures { let i = instantiation_view opened.now.given.now in OnOk result (signals.new ≡ signals.old ++ map (of.signal_of number i.is_top) (filter (of.is_own i.aliases i.of_module) (of.declared i.overrides i.of_module))) }
{
    let is_top = opened.given.is_top;
    for declaration in opened.declared.as_slice() {
        push_signal(alloc, number, is_top, &opened.links, declaration, signals)?;
    }
    Ok(())
}

/// Adds the memories of an instance with this number, in order of declaration.
pub fn push_memories(
    alloc: Global,
    opened: &Opened,
    number: u32,
    memories: &mut Sequence<Memory>,
) -> Result<(), NoMemory>
    ensures { let i = instantiation_view opened.now.given.now in OnOk result (memories.new ≡ memories.old ++ map (of.memory_of number) (filter of.is_memory (of.declared i.overrides i.of_module))) }
{
    for declaration in opened.declared.as_slice() {
        push_memory(alloc, number, &opened.links, declaration, memories)?;
    }
    Ok(())
}

/// Adds the parameters of an instance with this number, in order of text.
pub fn push_constants(
    alloc: Global,
    opened: &Opened,
    number: u32,
    constants: &mut Sequence<Constant>,
) -> Result<(), NoMemory>
    ensures { let i = instantiation_view opened.now.given.now in OnOk result (constants.new ≡ constants.old ++ flat_map (of.constant_of number) (of.constants i.overrides i.of_module)) }
{
    for parameter in &opened.constants.found {
        push_constant(alloc, number, parameter, constants)?;
    }
    Ok(())
}

/// Adds the ports that go by outer signals of an instance with this number, in order of declaration.
pub fn push_aliases(
    alloc: Global,
    opened: &Opened,
    number: u32,
    aliases: &mut Sequence<Alias>,
) -> Result<(), NoMemory>
    ensures { let i = instantiation_view opened.now.given.now in OnOk result (aliases.new ≡ aliases.old ++ flat_map (of.alias_of number i.aliases) (of.declared i.overrides i.of_module)) }
{
    for declaration in opened.declared.as_slice() {
        push_alias(alloc, number, &opened.links, declaration, aliases)?;
    }
    Ok(())
}

/// Adds the signal of a declared name, if it is one of the instance's own.
fn push_signal(
    alloc: Global,
    instance: u32,
    is_top: bool,
    links: &Links,
    declaration: &Declaration,
    signals: &mut Sequence<Signal>,
) -> Result<(), NoMemory>
    requires { IsInBounds (declaration_view declaration.now) }
    ensures { OnOk result (signals.new ≡ signals.old ++ own_signals instance is_top (links_view links.now) (declaration_view declaration.now)) }
{
    match links.role(declaration) {
        Role::Own => signals.push(own_signal(alloc, instance, is_top, declaration)?),
        Role::Joined(_) | Role::Memory(_) | Role::LoopVariable | Role::Instance | Role::Faulty =>
            Ok(()),
    }
}

/// Adds the memory of a declared name, if it is one.
fn push_memory(
    alloc: Global,
    instance: u32,
    links: &Links,
    declaration: &Declaration,
    memories: &mut Sequence<Memory>,
) -> Result<(), NoMemory>
    requires { IsInBounds (declaration_view declaration.now) }
    ensures { OnOk result (memories.new ≡ memories.old ++ own_memories instance (links_view links.now) (declaration_view declaration.now)) }
{
    match links.role(declaration) {
        Role::Memory(words) => memories.push(own_memory(alloc, instance, words, declaration)?),
        Role::Own | Role::Joined(_) | Role::LoopVariable | Role::Instance | Role::Faulty => Ok(()),
    }
}

/// Adds a parameter, unless its declaration has a fault.
fn push_constant(
    alloc: Global,
    instance: u32,
    parameter: &BoundParam,
    constants: &mut Sequence<Constant>,
) -> Result<(), NoMemory>
    ensures { OnOk result (constants.new ≡ constants.old ++ of.constant_of instance (bound_view parameter.now)) }
{
    match parameter.entry {
        Entry::Constant(value) => constants.push(Constant {
            instance,
            name: copy(alloc, &parameter.name)?,
            value,
        }),
        _ => Ok(()),
    }
}

/// Adds a declared name that goes by an outer signal.
fn push_alias(
    alloc: Global,
    instance: u32,
    links: &Links,
    declaration: &Declaration,
    aliases: &mut Sequence<Alias>,
) -> Result<(), NoMemory>
    ensures { OnOk result (aliases.new ≡ aliases.old ++ of.alias_to instance declaration.now.name.now.name ((links_view links.now).outer declaration.now.name.now.name)) }
{
    match links.outer(&declaration.name.name) {
        Some(signal) => aliases.push(Alias {
            instance,
            name: copy(alloc, &declaration.name.name)?,
            signal,
        }),
        None => Ok(()),
    }
}

/// A signal of an instance.
fn own_signal(
    alloc: Global,
    instance: u32,
    is_top: bool,
    declaration: &Declaration,
) -> Result<Signal, NoMemory>
    requires { IsInBounds (declaration_view declaration.now) }
    ensures { IfOk result (λ signal. signal ≡ of.signal_of instance is_top (declaration_view declaration.now)) }
{
    let bits = range_or(declaration.range);
    Ok(Signal {
        instance,
        name: copy(alloc, &declaration.name.name)?,
        high: bits.high,
        low: bits.low,
        ranged: declaration.range.is_some(),
        width: span(bits) as u8,
        signed: declaration.signed,
        input: is_top && declaration.direction.unwrap_or(false),
    })
}

/// A memory of an instance, with the range of its words.
fn own_memory(
    alloc: Global,
    instance: u32,
    words: Range,
    declaration: &Declaration,
) -> Result<Memory, NoMemory>
    requires { IsInBounds (declaration_view declaration.now) }
    ensures { IfOk result (λ memory. memory ≡ record (of.memory_of instance (declaration_view declaration.now)) { first = words.high; last = words.low }) }
{
    let bits = range_or(declaration.range);
    Ok(Memory {
        instance,
        name: copy(alloc, &declaration.name.name)?,
        first: words.high,
        last: words.low,
        high: bits.high,
        low: bits.low,
        ranged: declaration.range.is_some(),
        width: span(bits) as u8,
        signed: declaration.signed,
    })
}

/// A copy of a name.
fn copy(alloc: Global, name: &Name) -> Result<Name, NoMemory>
    ensures { IfOk result (λ copied. copied ≡ name.now) }
{
    Ok(Name::from_vec(Vec::from_slice(alloc, name.as_slice())?))
}
