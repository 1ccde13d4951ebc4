//! An instance inside another one: its ports, and how it is elaborated (IEEE 1364-2001, 12.1.2 and 12.3).

ghost use Rattle.std.specs.Prelude.{◌≡◌, ◌∷◌, [], ◌++◌, ℕ, IfOk, OnOk, bytes_eq, flat_map, map, ◌&&◌};
ghost use Rattle.std.specs.List.{list_any};
ghost use Rattle.design_model.specs.Design.{AreDistinct};
ghost use Rattle.elab_declarations.specs.Constants.{override_view, overrides_view};
ghost use Rattle.elab_instances.specs.InstanceView.{aliases_view, around_view, instantiation_view};
ghost use Rattle.elab_ports.specs.PortView.{joined_view, ports_view};
ghost use Rattle.elab_scope.specs.Tally.{after_faults};
ghost use Rattle.elab_scope.specs.View.{names_view};
ghost use Rattle.elaborator.specs.Walk.{around_here};
ghost use Rattle.flat_design.specs.Connections as spec;
ghost use Rattle.flat_design.specs.Flat.{instantiation, is_same_place};
ghost use Rattle.flat_design.specs.Instances as of_instances;
ghost use Rattle.flat_design.specs.Scope.{Scope as SpecScope, binding_of};
ghost use Rattle.verilog_tree.specs.View.{givens_view, module_view, one_view};

use crate::naming::{InstanceItem, InstancesOf};
use cov_host::{Name, NoMemory, Place};
use elab_declarations::{Declarations, Override, check_constants, check_declarations};
use elab_instances::{Instantiation, PortAlias};
use elab_ports::{Joined, JoinedPort, check_faulty_ports, check_given, join_all, joined_ports};
use elab_scope::{NameAt, Scope, Tally};
use std::alloc::Global;
use verilog_tree::{Given, Module, Named, One};

/// The ports of an instance that are joined to expressions, and how.
#[derive(Drop)]
pub(crate) struct Ports<'a> {
    pub(crate) ports: Vec<JoinedPort<'a>>,
    pub(crate) joined: Vec<Joined>,
}

/// Whether two places are one.
fn is_same_place(p: Place, q: Place) -> bool
    ensures { result ≡ is_same_place p q }
{
    p.source == q.source && p.line == q.line && p.column == q.column
}

/// Whether the declaration of a name is at its place.
pub(crate) fn is_declared_here(declared: &Declarations, name: &Named) -> bool
    requires { AreDistinct (map (λ d. d.name.name) declared.now) }
    ensures { result ≡ list_any (λ d. bytes_eq d.name.name name.now.name && is_same_place d.name.place name.now.place) declared.now }
{
    match declared.find(name.name.as_slice()) {
        Some(found) => is_same_place(found.name.place, name.place),
        None => false,
    }
}

/// The names of a module's port list.
fn port_names<'a>(alloc: Global, inner: &'a Module) -> Result<Vec<NameAt<'a>>, NoMemory>
    ensures { IfOk result (λ names. names_view names.items ≡ (module_view inner.now).ports) }
{
    let mut names = Vec::new(alloc);
    for port in inner.ports.as_slice() {
        names.push(NameAt::of(port))?;
    }
    Ok(names)
}

/// The declared names of a module with these overrides. What is wrong with them is reported where the instance is
/// opened.
fn declared_names<'a>(
    alloc: Global,
    overrides: &[Override],
    inner: &'a Module,
) -> Result<Declarations<'a>, NoMemory>
    ensures { IfOk result (λ declared. declared ≡ of_instances.declared (overrides_view overrides.now) (module_view inner.now)) }
{
    let mut untold = Tally::new(alloc);
    let constants = check_constants(alloc, overrides, inner, &mut untold)?;
    check_declarations(alloc, &constants.scope, inner, &mut untold)
}

/// The ports of an instance that its item joins to expressions, and how, with what is wrong with the connections.
pub(crate) fn check_ports<'a>(
    alloc: Global,
    scope: &Scope,
    item: InstanceItem<'a>,
    of: &InstancesOf<'a>,
    given: &'a [Given],
    tally: &mut Tally<'a>,
) -> Result<Ports<'a>, NoMemory>
    ensures ports { IfOk result (λ found. ports_view found.ports.items ≡ spec.joined_ports (overrides_view of.now.overrides.items) (module_view of.now.module.now) item.entry.module.now (givens_view given.now)) }
    ensures how { IfOk result (λ found. map joined_view found.joined.items ≡ map (λ j. spec.joining (binding_of scope.now) j.port j.label j.value) (ports_view found.ports.items)) }
    ensures met { OnOk result (tally.new ≡ after_faults tally.old (spec.connections_faults (binding_of scope.now) (overrides_view of.now.overrides.items) (module_view of.now.module.now) item.entry.module.now (givens_view given.now))) }
{
    let label = NameAt::of(item.module);
    let names = port_names(alloc, of.module)?;
    let connections = check_given(alloc, label, &names, given, tally)?;
    let declared = declared_names(alloc, &of.overrides, of.module)?;
    let ports = joined_ports(alloc, &declared, of.module, &connections)?;
    let joined = join_all(alloc, scope, &ports, tally)?;
    check_faulty_ports(alloc, scope, &declared, of.module, &connections, tally)?;
    Ok(Ports { ports, joined })
}

/// A copy of an override.
fn copy_override(alloc: Global, one: &Override) -> Result<Override, NoMemory>
    ensures { IfOk result (λ copy. override_view copy ≡ override_view one.now) }
{
    let name = Name::from_vec(Vec::from_slice(alloc, one.name.as_slice())?);
    Ok(Override {
        name,
        value: one.value,
    })
}

/// A copy of overrides.
fn copy_overrides(alloc: Global, overrides: &[Override]) -> Result<Vec<Override>, NoMemory>
    ensures { IfOk result (λ copy. overrides_view copy.items ≡ overrides_view overrides.now) }
{
    let mut copy = Vec::new(alloc);
    for one in overrides {
        let own = copy_override(alloc, one)?;
        copy.push(own)?;
    }
    Ok(copy)
}

/// Adds a port as another name of the signal that it is joined to, if it is.
fn push_alias<'a>(
    aliases: &mut Vec<PortAlias<'a>>,
    port: &JoinedPort<'a>,
    joined: Joined,
) -> Result<(), NoMemory>
    ensures { OnOk result (aliases_view aliases.new.items ≡ aliases_view aliases.old.items ++ spec.alias_as port.now.port.name.now.name (joined_view joined)) }
{
    match joined {
        Joined::Alias(signal) => aliases.push(PortAlias {
            port: port.port.name.name.as_slice(),
            signal,
        })?,
        Joined::Assignment | Joined::Nothing => {}
    }
    Ok(())
}

/// The ports that are other names of signals, in order, where each is joined as it is in some scope.
fn port_aliases<'a>(
    alloc: Global,
    ports: &[JoinedPort<'a>],
    joined: &[Joined],
) -> Result<Vec<PortAlias<'a>>, NoMemory>
    ensures { IfOk result (λ aliases. (g : SpecScope) → map joined_view joined.now ≡ map (λ j. spec.joining g j.port j.label j.value) (ports_view ports.now) → aliases_view aliases.items ≡ flat_map (spec.port_alias g) (ports_view ports.now)) }
{
    let mut aliases = Vec::new(alloc);
    for (port, one) in ports.iter().zip(joined) {
        push_alias(&mut aliases, port, *one)?;
    }
    Ok(aliases)
}

/// A path with one more name.
fn dotted(alloc: Global, path: &Name, name: &Name) -> Result<Name, NoMemory>
    ensures { IfOk result (λ longer. longer ≡ of_instances.dotted path.now name.now) }
{
    let mut bytes = Vec::from_slice(alloc, path.as_slice())?;
    bytes.push(b'.')?;
    bytes.extend_from_slice(name.as_slice())?;
    Ok(Name::from_vec(bytes))
}

/// The modules around what is in a module.
fn with_module<'a>(
    alloc: Global,
    around: &[&'a Module],
    inner: &'a Module,
) -> Result<Vec<&'a Module>, NoMemory>
    ensures { IfOk result (λ longer. around_view longer.items ≡ (module_view inner.now).name.name ∷ around_view around.now) }
{
    let mut longer = Vec::from_slice(alloc, around)?;
    longer.push(inner)?;
    Ok(longer)
}

/// One of the instances that an item names, inside another one.
pub(crate) fn inner_instance<'a>(
    alloc: Global,
    given: &Instantiation<'a>,
    place: Place,
    of: &InstancesOf<'a>,
    one: &'a One,
    ports: &Ports<'a>,
) -> Result<Instantiation<'a>, NoMemory>
    ensures { IfOk result (λ inner. (base n : ℕ) (g : SpecScope) → map joined_view ports.now.joined.items ≡ map (λ j. spec.joining g j.port j.label j.value) (ports_view ports.now.ports.items) → instantiation_view inner ≡ instantiation (around_here base (instantiation_view given.now) n g) place (module_view of.now.module.now) (overrides_view of.now.overrides.items) (one_view one.now) (ports_view ports.now.ports.items)) }
{
    let path = dotted(alloc, &given.path, &one.name.name)?;
    let overrides = copy_overrides(alloc, &of.overrides)?;
    let aliases = port_aliases(alloc, &ports.ports, &ports.joined)?;
    let around = with_module(alloc, &given.around, of.module)?;
    Ok(Instantiation {
        module: of.module,
        path,
        overrides,
        aliases,
        around,
        item: place,
        is_top: false,
    })
}
