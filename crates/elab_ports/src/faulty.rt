//! The connections of ports that have a fault themselves.

ghost use Rattle.std.specs.Prelude.{◌≡◌, OnOk, flat_map};
ghost use Rattle.std.specs.Option.{option_map};
ghost use Rattle.elab_declarations.specs.DeclarationView.{declaration_view};
ghost use Rattle.elab_ports.specs.ConnectionView.{connection_view, connections_view};
ghost use Rattle.elab_ports.specs.FirstBound.{connections_by};
ghost use Rattle.elab_scope.specs.Tally.{after_faults};
ghost use Rattle.elab_scope.specs.View.{name_view};
ghost use Rattle.flat_design.specs.Connections as spec;
ghost use Rattle.flat_design.specs.Scope.{binding_of};
ghost use Rattle.verilog_tree.specs.View.{expr_view, module_view};

use crate::given::Connection;
use crate::joining::check_value;
use crate::ports::{JoinedPort, first_connections, is_sound_port};
use cov_host::NoMemory;
use elab_checks::check;
use elab_declarations::{Declaration, Declarations};
use elab_scope::{NameAt, NameMap, Scope, Tally};
use std::alloc::Global;
use verilog_tree::{Expr, Module};

/// Whether there is no declaration of a port, or one with a fault.
fn is_faulty_port(port: Option<&Declaration>) -> bool
    ensures { result ≡ spec.is_faulty_port (option_map (λ d. declaration_view d.now) port.entry) }
{
    match port {
        Some(port) => !is_sound_port(port),
        None => true,
    }
}

/// Reports the faults of an expression that is joined to a faulty port; without a direction, those that it has as a
/// value.
fn check_faulty_value<'a>(
    scope: &Scope,
    port: Option<&Declaration<'a>>,
    label: NameAt<'a>,
    value: &'a Expr,
    tally: &mut Tally<'a>,
)
    ensures { tally.new ≡ after_faults tally.old (spec.value_faults (binding_of scope.now) (option_map (λ d. declaration_view d.now) port.entry) (name_view label.entry) (expr_view value.now)) }
{
    match port {
        Some(port) if port.direction.is_some() => {
            let joined = JoinedPort {
                port: *port,
                label,
                value,
            };
            check_value(scope, &joined, tally);
        }
        _ => {
            check(scope, value, tally);
        }
    }
}

/// Reports the faults of what is joined to the port of this name, where the port is faulty.
fn check_faulty_port<'a>(
    scope: &Scope,
    declared: &Declarations<'a>,
    first: &NameMap<Connection<'a>>,
    name: &[u8],
    tally: &mut Tally<'a>,
)
    ensures { tally.new ≡ after_faults tally.old (spec.faulty_faults (binding_of scope.now) (spec.declaration_of declared.now name.now) (connections_by first.now name.now)) }
{
    let port = declared.find(name);
    let Some(connection) = first.get(name) else {
        return;
    };
    if !is_faulty_port(port) {
        return;
    }
    if let Some(value) = connection.value {
        check_faulty_value(scope, port, connection.label, value, tally);
    }
}

/// Reports the faults of what these connections join to the faulty ports of a module, which are joined to nothing.
pub fn check_faulty_ports<'a>(
    alloc: Global,
    scope: &Scope,
    declared: &Declarations<'a>,
    definition: &'a Module,
    connections: &[Connection<'a>],
    tally: &mut Tally<'a>,
) -> Result<(), NoMemory>
    ensures { OnOk result (tally.new ≡ after_faults tally.old (flat_map (spec.faulty_port_faults (binding_of scope.now) declared.now (connections_view connections.now)) (module_view definition.now).ports)) }
{
    let first = first_connections(alloc, connections)?;
    for port in definition.ports.as_slice() {
        check_faulty_port(scope, declared, &first, port.name.as_slice(), tally);
    }
    Ok(())
}
