//! Connections of ports and overrides of parameters, by position or by name (IEEE 1364-2001, 12.2 and 12.3).

ghost use Rattle.std.specs.Prelude.{◌≡◌, [], IfOk, OnOk, filter, length, nat_lt};
ghost use Rattle.flat_design.specs.Connections as spec;
ghost use Rattle.flat_design.specs.Fault.{fault_at, fault_if, none};
ghost use Rattle.flat_design.specs.declared.fault.ElabKind.TheVariants.{PortMismatch};
ghost use Rattle.flat_design.specs.Identifiers.{is_among};
ghost use Rattle.verilog_tree.specs.View.{givens_view};
ghost use Rattle.elab_scope.specs.NameSet.{has, name_faults, with_name};
ghost use Rattle.elab_scope.specs.Tally.{after_faults};
ghost use Rattle.elab_scope.specs.View.{name_view, names_view};
ghost use Rattle.elab_ports.specs.ConnectionView.{connection_view, connections_view};

use cov_host::NoMemory;
use elab_scope::{FoundFault, NameAt, NameSet, Tally};
use flat_design::ElabKind;
use std::alloc::Global;
use verilog_tree::{Expr, Given, Named};

/// A connection of a port or an override of a parameter: which one, the name that a fault is reported with, and the
/// value.
#[derive(Clone, Copy, Drop)]
pub struct Connection<'a> {
    /// The name of the port or the parameter.
    pub port: &'a [u8],
    /// The name that a fault is reported with, and its place.
    pub label: NameAt<'a>,
    /// The expression, None for an empty connection.
    pub value: Option<&'a Expr>,
}

/// The connections in their order; those by position take the names in order, and the label as the name that they are
/// reported with.
pub fn connections<'a>(
    alloc: Global,
    label: NameAt<'a>,
    names: &[NameAt<'a>],
    given: &'a [Given],
) -> Result<Vec<Connection<'a>>, NoMemory>
    ensures { IfOk result (λ found. connections_view found.items ≡ spec.connections (name_view label.entry) (names_view names.now) (givens_view given.now)) }
{
    let mut found = Vec::new(alloc);
    let mut position = 0;
    for one in given {
        match &one.name {
            Some(name) => found.push(Connection {
                port: name.name.as_slice(),
                label: NameAt::of(name),
                value: one.value.as_ref(),
            })?,
            None => {
                if let Some(name) = names.get(position) {
                    found.push(Connection {
                        port: name.name,
                        label,
                        value: one.value.as_ref(),
                    })?;
                    position += 1;
                }
            }
        }
    }
    Ok(found)
}

/// The names as a set.
fn set_of<'a>(alloc: Global, names: &[NameAt<'a>]) -> Result<NameSet<'a>, NoMemory>
    ensures { IfOk result (λ set. has set ≡ is_among (names_view names.now)) }
{
    let mut set = NameSet::new(alloc);
    for name in names {
        let _ = set.add(name.name)?;
    }
    Ok(set)
}

/// Which connections name none of the names, and which are given twice; whether there is no such connection.
fn check_names<'a>(
    alloc: Global,
    names: &[NameAt],
    connections: &[Connection<'a>],
    tally: &mut Tally<'a>,
) -> Result<bool, NoMemory>
    ensures met { OnOk result (tally.new ≡ after_faults tally.old (spec.connection_faults (names_view names.now) [] (connections_view connections.now))) }
    ensures sound { IfOk result (λ sound. sound ≡ none (spec.connection_faults (names_view names.now) [] (connections_view connections.now))) }
{
    let known = set_of(alloc, names)?;
    let mut given = NameSet::new(alloc);
    let mut sound = true;
    for connection in connections {
        sound &= check_name(&known, &mut given, connection, tally)?;
    }
    Ok(sound)
}

/// Whether a connection names one of the names, and none that was given before.
fn check_name<'a>(
    known: &NameSet,
    given: &mut NameSet<'a>,
    connection: &Connection<'a>,
    tally: &mut Tally<'a>,
) -> Result<bool, NoMemory>
    ensures met { OnOk result (tally.new ≡ after_faults tally.old (name_faults (has known.now) (has given.old) (connection_view connection.now))) }
    ensures sound { IfOk result (λ sound. sound ≡ none (name_faults (has known.now) (has given.old) (connection_view connection.now))) }
    ensures given { OnOk result (has given.new ≡ with_name connection.now.port.now (has given.old)) }
{
    let is_new = given.add(connection.port)?;
    if !is_new || !known.has(connection.port) {
        tally.fault(FoundFault::at(ElabKind::PortMismatch, connection.label));
        return Ok(false);
    }
    Ok(true)
}

/// How many of them are by position.
fn count_by_position(given: &[Given]) -> usize
    ensures { result ≡ length (filter spec.is_by_position (givens_view given.now)) }
{
    let mut count = 0;
    for one in given {
        if one.name.is_none() {
            count += 1;
        }
    }
    count
}

/// Whether there are as many names as there are connections by position.
fn check_count<'a>(
    label: NameAt<'a>,
    names: &[NameAt<'a>],
    given: &[Given],
    tally: &mut Tally<'a>,
) -> bool
    ensures met { tally.new ≡ after_faults tally.old (fault_if (nat_lt (length (names_view names.now)) (length (filter spec.is_by_position (givens_view given.now)))) (fault_at PortMismatch (name_view label.entry))) }
    ensures sound { result ≡ none (fault_if (nat_lt (length (names_view names.now)) (length (filter spec.is_by_position (givens_view given.now)))) (fault_at PortMismatch (name_view label.entry))) }
{
    if count_by_position(given) > names.len() {
        tally.fault(FoundFault::at(ElabKind::PortMismatch, label));
        return false;
    }
    true
}

/// Whether each connection names one of the names and is given once, and by position there are no more than there are
/// names.
pub(crate) fn check_connections<'a>(
    alloc: Global,
    label: NameAt<'a>,
    names: &[NameAt<'a>],
    given: &[Given],
    connections: &[Connection<'a>],
    tally: &mut Tally<'a>,
) -> Result<bool, NoMemory>
    requires { connections_view connections.now ≡ spec.connections (name_view label) (names_view names.now) (givens_view given.now) }
    ensures met { OnOk result (tally.new ≡ after_faults tally.old (spec.given_faults (name_view label.entry) (names_view names.now) (givens_view given.now))) }
    ensures sound { IfOk result (λ sound. sound ≡ none (spec.given_faults (name_view label.entry) (names_view names.now) (givens_view given.now))) }
{
    let few = check_count(label, names, given, tally);
    let known = check_names(alloc, names, connections, tally)?;
    Ok(few && known)
}

/// The connections, of which each must name one of the names and be given once; by position there may be no more than
/// there are names.
pub fn check_given<'a>(
    alloc: Global,
    label: NameAt<'a>,
    names: &[NameAt<'a>],
    given: &'a [Given],
    tally: &mut Tally<'a>,
) -> Result<Vec<Connection<'a>>, NoMemory>
    ensures connections { IfOk result (λ found. connections_view found.items ≡ spec.connections (name_view label.entry) (names_view names.now) (givens_view given.now)) }
    ensures met { OnOk result (tally.new ≡ after_faults tally.old (spec.given_faults (name_view label.entry) (names_view names.now) (givens_view given.now))) }
{
    let found = connections(alloc, label, names, given)?;
    check_connections(alloc, label, names, given, &found, tally)?;
    Ok(found)
}
