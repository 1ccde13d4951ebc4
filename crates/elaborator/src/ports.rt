//! The ports of an instance that are joined by assignments, once its items are walked (IEEE 1364-2001, 12.3.9).

ghost use Rattle.std.specs.Prelude.{◌≡◌, ◌≤◌, ◌<◌, ◌^◌, Some, map, IfSome, OnOk};
ghost use Rattle.elab_build.specs.Sound.{IsClear};
ghost use Rattle.elab_declarations.specs.DeclarationView.{declaration_view};
ghost use Rattle.elab_ports.specs.PortView.{joined_view, port_view, ports_view};
ghost use Rattle.elab_scope.specs.Entries.{IsVectorRange};
ghost use Rattle.elab_scope.specs.View.{name_view};
ghost use Rattle.elaborator.specs.Kept.{IsKept};
ghost use Rattle.elaborator.specs.Ports.{signal_joined};
ghost use Rattle.elaborator.specs.Room.{HaveFewer};
ghost use Rattle.elaborator.specs.Walk.{GoesBy, IsClean, around_here};
ghost use Rattle.flat_design.specs.Connections.{joining};
ghost use Rattle.flat_design.specs.Flat.{join_port, join_ports, join_signal};
ghost use Rattle.flat_design.specs.Instances.{Instantiation, is_input as spec_is_input};
ghost use Rattle.flat_design.specs.Numbering.{nodes};
ghost use Rattle.flat_design.specs.Scope.{binding_of, look_up};
ghost use Rattle.flat_design.specs.declared.entry.Entry.TheVariants.{Signal as a_signal};
ghost use Rattle.verilog_tree.specs.View.{expr_view};

use crate::ground::Ground;
use crate::processes::{walk_input, walk_output};
use crate::walk::{Numbers, Walk};
use cov_host::{NoMemory, Place};
use elab_ports::{Joined, JoinedPort};
use elab_scope::Scope;
use flat_design::{Entry, SignalEntry};

/// The signal that a port has inside, where it is joined by an assignment.
fn joined_signal(inside: &Scope, port: &JoinedPort, joined: Joined) -> Option<SignalEntry>
    ensures signal { result ≡ signal_joined (joined_view joined) (look_up (binding_of inside.now) port.now.port.name.now.name) }
    ensures within { IfSome result (λ signal. IsVectorRange signal.range) }
{
    match (joined, inside.get(port.port.name.name.as_slice())) {
        (Joined::Assignment, Some(Entry::Signal(signal))) => Some(*signal),
        _ => None,
    }
}

/// Whether a port is an input.
fn is_input(port: &JoinedPort) -> bool
    ensures { result ≡ spec_is_input (port_view port.now).port }
{
    port.port.direction.unwrap_or(false)
}

/// Elaborates a port that is joined by an assignment, with its signal.
fn walk_signal<'a>(
    ground: Ground<'_, 'a>,
    outside: &Scope,
    place: Place,
    signal: SignalEntry,
    port: &JoinedPort<'a>,
    numbers: Numbers,
    walk: &mut Walk<'a>,
) -> Result<(), NoMemory>
    requires base { ground.base ≤ 65536 }
    requires clear { IsClean walk.old.tally → IsClear (binding_of outside.now) }
    requires signal { IsVectorRange signal.range }
    requires few { nodes (binding_of outside.now) (expr_view port.now.value.now) < 2 ^ 32 }
    ensures { OnOk result ((given : Instantiation) → GoesBy ground.entry.base walk.old numbers walk.new numbers (λ b i l n st. join_signal (around_here b given i (binding_of outside.now)) place (port_view port.now) (Some (a_signal signal)) st) 0 0) }
{
    if is_input(port) {
        walk_input(
            ground, outside, place, port.label, signal, port.value, numbers, walk,
        )
    } else {
        walk_output(ground, outside, place, signal, port.value, numbers, walk)
    }
}

/// Elaborates a port that is joined in this way.
fn walk_port<'a>(
    ground: Ground<'_, 'a>,
    outside: &Scope,
    place: Place,
    inside: &Scope,
    port: &JoinedPort<'a>,
    joined: Joined,
    numbers: Numbers,
    walk: &mut Walk<'a>,
) -> Result<(), NoMemory>
    requires base { ground.base ≤ 65536 }
    requires clear { IsClean walk.old.tally → IsClear (binding_of outside.now) }
    requires how { joined_view joined ≡ joining (binding_of outside.now) (declaration_view port.now.port) (name_view port.now.label) (expr_view port.now.value.now) }
    requires few { nodes (binding_of outside.now) (expr_view port.now.value.now) < 2 ^ 32 }
    ensures { OnOk result ((given : Instantiation) → GoesBy ground.entry.base walk.old numbers walk.new numbers (λ b i l n st. join_port (around_here b given i (binding_of outside.now)) place (binding_of inside.now) (port_view port.now) st) 0 0) }
{
    let found = joined_signal(inside, port, joined);
    match found {
        Some(signal) => walk_signal(ground, outside, place, signal, port, numbers, walk),
        None => Ok(()),
    }
}

/// Elaborates each port in order.
pub(crate) fn walk_ports<'a>(
    ground: Ground<'_, 'a>,
    outside: &Scope,
    place: Place,
    inside: &Scope,
    ports: &[JoinedPort<'a>],
    joined: &[Joined],
    numbers: Numbers,
    walk: &mut Walk<'a>,
) -> Result<(), NoMemory>
    requires base { ground.base ≤ 65536 }
    requires kept { IsKept walk.old }
    requires clear { IsClean walk.old.tally → IsClear (binding_of outside.now) }
    requires how { map joined_view joined.now ≡ map (λ j. joining (binding_of outside.now) j.port j.label j.value) (ports_view ports.now) }
    requires few { HaveFewer (2 ^ 32) (binding_of outside.now) (ports_view ports.now) }
    ensures { OnOk result ((given : Instantiation) → GoesBy ground.entry.base walk.old numbers walk.new numbers (λ b i l n st. join_ports (around_here b given i (binding_of outside.now)) place (binding_of inside.now) (ports_view ports.now) st) 0 0) }
{
    for (port, one) in ports.iter().zip(joined) {
        walk_port(ground, outside, place, inside, port, *one, numbers, walk)?;
    }
    Ok(())
}
