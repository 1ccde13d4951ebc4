//! The ports of a module that an instance joins to expressions (IEEE 1364-2001, 12.3).

ghost use Rattle.std.specs.Prelude.{◌≡◌, IfOk, flat_map};
ghost use Rattle.std.specs.Option.{option_to_list};
ghost use Rattle.elab_declarations.specs.DeclarationView.{declaration_view};
ghost use Rattle.elab_ports.specs.ConnectionView.{connections_view};
ghost use Rattle.elab_ports.specs.FirstBound.{connections_by};
ghost use Rattle.elab_ports.specs.PortView.{ports_view};
ghost use Rattle.flat_design.specs.Connections as spec;
ghost use Rattle.verilog_tree.specs.View.{module_view};

use crate::first::bind_first;
use crate::given::Connection;
use cov_host::NoMemory;
use elab_declarations::{Declaration, Declarations, Sort};
use elab_scope::{NameAt, NameMap};
use std::alloc::Global;
use verilog_tree::{Expr, Module};

/// A port of a module that an instance joins to an expression.
#[derive(Clone, Copy, Drop)]
pub struct JoinedPort<'a> {
    /// The declaration of the port.
    pub port: Declaration<'a>,
    /// The name that a fault is reported with.
    pub label: NameAt<'a>,
    /// The expression that it is joined to.
    pub value: &'a Expr,
}

/// The connections by their ports, of two of one port the first.
pub(crate) fn first_connections<'a>(
    alloc: Global,
    connections: &[Connection<'a>],
) -> Result<NameMap<Connection<'a>>, NoMemory>
    ensures { IfOk result (λ first. connections_by first ≡ spec.connection_of (connections_view connections.now)) }
{
    let mut first = NameMap::new(alloc);
    for connection in connections {
        bind_first(&mut first, connection.port, *connection)?;
    }
    Ok(first)
}

/// Whether a declaration is that of a port that is a signal, and has no fault.
pub(crate) fn is_sound_port(port: &Declaration) -> bool
    ensures { result ≡ spec.is_sound_port (declaration_view port.now) }
{
    port.direction.is_some() && matches!(port.sort, Sort::Net | Sort::Variable)
}

/// The port of this name, if it is connected to an expression.
fn joined_port<'a>(
    declared: &Declarations<'a>,
    first: &NameMap<Connection<'a>>,
    name: &[u8],
) -> Option<JoinedPort<'a>>
    ensures { ports_view (option_to_list result) ≡ spec.declared_port (spec.declaration_of declared.now name.now) (connections_by first.now name.now) }
{
    let port = declared.find(name)?;
    let connection = first.get(name)?;
    if !is_sound_port(port) {
        return None;
    }
    Some(JoinedPort {
        port: *port,
        label: connection.label,
        value: connection.value?,
    })
}

/// The ports of a module that these connections join to expressions, in the order of the header's list.
pub fn joined_ports<'a>(
    alloc: Global,
    declared: &Declarations<'a>,
    definition: &'a Module,
    connections: &[Connection<'a>],
) -> Result<Vec<JoinedPort<'a>>, NoMemory>
    ensures { IfOk result (λ found. ports_view found.items ≡ flat_map (spec.joined_port declared.now (connections_view connections.now)) (module_view definition.now).ports) }
{
    let first = first_connections(alloc, connections)?;
    let mut found = Vec::new(alloc);
    for port in definition.ports.as_slice() {
        if let Some(joined) = joined_port(declared, &first, port.name.as_slice()) {
            found.push(joined)?;
        }
    }
    Ok(found)
}
