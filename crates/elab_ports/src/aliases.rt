//! The ports that are one signal with one of the instance around (IEEE 1364-2001, 12.3.9).

ghost use Rattle.std.specs.Prelude.{◌≡◌, IfOk, OnOk, flat_map, map};
ghost use Rattle.elab_ports.specs.FirstBound.{or_bound};
ghost use Rattle.elab_ports.specs.PortView.{joined_view, ports_view};
ghost use Rattle.elab_scope.specs.NameMap.{bound_to};
ghost use Rattle.flat_design.specs.Connections as spec;
ghost use Rattle.flat_design.specs.Instances.{alias_number};
ghost use Rattle.flat_design.specs.Scope.{Scope};

use crate::first::bind_first;
use crate::joining::Joined;
use crate::ports::JoinedPort;
use cov_host::NoMemory;
use elab_scope::NameMap;
use std::alloc::Global;

/// Notes the signal that a port is joined to as one, unless an earlier port has its name.
fn note_alias(aliases: &mut NameMap<u32>, port: &JoinedPort, joined: Joined) -> Result<(), NoMemory>
    ensures { OnOk result (bound_to aliases.new ≡ or_bound (bound_to aliases.old) (alias_number (spec.alias_as port.now.port.name.now.name (joined_view joined)))) }
{
    match joined {
        Joined::Alias(signal) => bind_first(aliases, port.port.name.name.as_slice(), signal),
        _ => Ok(()),
    }
}

/// The ports that are other names of signals, where each is joined as it is in some scope.
pub fn port_aliases(
    alloc: Global,
    ports: &[JoinedPort],
    joined: &[Joined],
) -> Result<NameMap<u32>, NoMemory>
    ensures { IfOk result (λ aliases. (g : Scope) → map joined_view joined.now ≡ map (λ j. spec.joining g j.port j.label j.value) (ports_view ports.now) → bound_to aliases ≡ alias_number (flat_map (spec.port_alias g) (ports_view ports.now))) }
{
    let mut aliases = NameMap::new(alloc);
    for (port, one) in ports.iter().zip(joined) {
        note_alias(&mut aliases, port, *one)?;
    }
    Ok(aliases)
}
