//! How a port is joined to an expression: as one signal with it, or by an assignment (IEEE 1364-2001, 12.3.9).

ghost use Rattle.std.specs.Prelude.{◌≡◌, IfOk, OnOk, Some, flat_map, map};
ghost use Rattle.std.specs.Option.{option_copied, option_to_list};
ghost use Rattle.elab_declarations.specs.DeclarationView.{declaration_view};
ghost use Rattle.elab_ports.specs.Outputs.{all_output_faults};
ghost use Rattle.elab_ports.specs.PortView.{joined_view, port_view, ports_view};
ghost use Rattle.elab_scope.specs.Tally.{after_faults};
ghost use Rattle.elab_scope.specs.View.{fault_view, name_view};
ghost use Rattle.flat_design.specs.Connections as spec;
ghost use Rattle.flat_design.specs.Fault.{none};
ghost use Rattle.flat_design.specs.Identifiers.{base_name as spec_base_name};
ghost use Rattle.flat_design.specs.Instances.{is_input as spec_is_input};
ghost use Rattle.flat_design.specs.Loops.{is_identifier};
ghost use Rattle.flat_design.specs.Scope.{binding_of, look_up};
ghost use Rattle.flat_design.specs.declared.entry.Entry.TheVariants.{Signal};
ghost use Rattle.verilog_tree.specs.Tree.{exprs_of};
ghost use Rattle.verilog_tree.specs.View.{expr_view, exprs_view};

use crate::ports::JoinedPort;
use cov_host::NoMemory;
use elab_checks::{check, check_target};
use elab_declarations::{Declaration, is_same_range};
use elab_scope::{FoundFault, NameAt, Scope, Tally, base_name, names_faulty};
use flat_design::{ElabKind, Entry, Mode, SignalEntry};
use std::alloc::Global;
use verilog_tree::{Expr, ExprForm};

/// How a port is joined.
#[derive(Clone, Copy, Drop)]
pub enum Joined {
    /// It is one signal with the one of this number.
    Alias(u32),
    Assignment,
    /// It is joined to nothing, since it has a fault.
    Nothing,
}

/// Whether a declaration is that of an input.
fn is_input(port: &Declaration) -> bool
    ensures { result ≡ spec_is_input (declaration_view port.now) }
{
    port.direction.unwrap_or(false)
}

/// Whether an output may be joined to a signal: to a net that is no input (IEEE 1364-2001, 12.3.9.2).
fn takes_output(signal: SignalEntry) -> bool
    ensures { result ≡ spec.takes_output signal }
{
    signal.net && !signal.input
}

/// How a port is joined to a signal: as one signal where range and sign are equal.
fn join_signal(port: &Declaration, signal: SignalEntry) -> Joined
    ensures { joined_view result ≡ spec.joined_name (declaration_view port.now) (Some (Signal signal)) }
{
    if !is_input(port) && !takes_output(signal) {
        Joined::Nothing
    } else if is_same_range(port.range, signal.range) && port.signed == signal.signed {
        Joined::Alias(signal.number)
    } else {
        Joined::Assignment
    }
}

/// How a port is joined to a plain name, by what that means.
fn join_name(port: &Declaration, entry: Option<&Entry>) -> Joined
    ensures { joined_view result ≡ spec.joined_name (declaration_view port.now) (option_copied entry.entry) }
{
    match entry {
        Some(Entry::Signal(signal)) => join_signal(port, *signal),
        Some(Entry::Constant(_)) if is_input(port) => Joined::Assignment,
        _ => Joined::Nothing,
    }
}

/// Whether an expression is a plain name.
fn is_name(expr: &Expr) -> bool
    ensures { result ≡ is_identifier (expr_view expr.now) }
{
    matches!(&*expr.form, ExprForm::Name(_))
}

/// The fault of an output that is joined to what is no concatenation, if there is one: to what is no net or is an
/// input, or to a memory.
fn output_fault<'a>(scope: &Scope, label: NameAt<'a>, expr: &'a Expr) -> Option<FoundFault<'a>>
    ensures { map fault_view (option_to_list result) ≡ spec.output_leaf_faults (binding_of scope.now) (name_view label.entry) (look_up (binding_of scope.now) (spec_base_name (expr_view expr.now)).name) (expr_view expr.now) }
{
    let base = base_name(expr);
    match scope.get(base.name) {
        Some(Entry::Faulty) => None,
        Some(Entry::Signal(signal)) if takes_output(*signal) => None,
        Some(Entry::Memory(_)) if is_name(expr) => Some(FoundFault::at(ElabKind::WrongUse, base)),
        None if !base.name.is_empty() => Some(FoundFault::at(ElabKind::Undeclared, base)),
        _ => Some(FoundFault::at(ElabKind::PortMismatch, label)),
    }
}

/// Reports the fault of an output that is joined to what is no concatenation, and says whether there is no fault.
fn check_output_leaf<'a>(
    scope: &Scope,
    label: NameAt<'a>,
    expr: &'a Expr,
    tally: &mut Tally<'a>,
) -> bool
    ensures met { tally.new ≡ after_faults tally.old (spec.output_leaf_faults (binding_of scope.now) (name_view label.entry) (look_up (binding_of scope.now) (spec_base_name (expr_view expr.now)).name) (expr_view expr.now)) }
    ensures sound { result ≡ none (spec.output_leaf_faults (binding_of scope.now) (name_view label.entry) (look_up (binding_of scope.now) (spec_base_name (expr_view expr.now)).name) (expr_view expr.now)) }
{
    match output_fault(scope, label, expr) {
        Some(fault) => {
            tally.fault(fault);
            false
        }
        None => true,
    }
}

/// Reports the faults of an output that is joined to an expression, part by part, and says whether it has no fault.
#[cycle(outputs)]
fn check_output<'a>(scope: &Scope, label: NameAt<'a>, expr: &'a Expr, tally: &mut Tally<'a>) -> bool
    ensures met { tally.new ≡ after_faults tally.old (spec.output_faults (binding_of scope.now) (name_view label.entry) (expr_view expr.now)) }
    ensures sound { result ≡ none (spec.output_faults (binding_of scope.now) (name_view label.entry) (expr_view expr.now)) }
{
    match &*expr.form {
        ExprForm::Concat(parts) => check_outputs(scope, label, parts, tally),
        _ => check_output_leaf(scope, label, expr, tally),
    }
}

/// Reports the faults of outputs that are joined to these expressions, and says whether none of them has a fault.
#[cycle(outputs)]
fn check_outputs<'a>(
    scope: &Scope,
    label: NameAt<'a>,
    exprs: &'a [Expr],
    tally: &mut Tally<'a>,
) -> bool
    ensures met { tally.new ≡ after_faults tally.old (all_output_faults (binding_of scope.now) (name_view label.entry) (exprs_of (exprs_view exprs.now))) }
    ensures sound { result ≡ none (all_output_faults (binding_of scope.now) (name_view label.entry) (exprs_of (exprs_view exprs.now))) }
{
    let mut sound = true;
    for expr in exprs {
        sound &= check_output(scope, label, expr, tally);
    }
    sound
}

/// Reports the faults of the expression that a port is joined to, and says whether it has no fault.
pub(crate) fn check_value<'a>(scope: &Scope, port: &JoinedPort<'a>, tally: &mut Tally<'a>) -> bool
    ensures met { tally.new ≡ after_faults tally.old (spec.joined_faults (binding_of scope.now) (name_view port.now.label) (declaration_view port.now.port) (expr_view port.now.value.now)) }
    ensures sound { result ≡ none (spec.joined_faults (binding_of scope.now) (name_view port.now.label) (declaration_view port.now.port) (expr_view port.now.value.now)) }
{
    if is_input(&port.port) {
        return check(scope, port.value, tally);
    }
    check_output(scope, port.label, port.value, tally)
        && check_target(scope, Mode::Continuous, port.value, tally)
}

/// How a port is joined to its expression, with what is wrong where it is joined to nothing (IEEE 1364-2001, 12.3.9).
pub fn join<'a>(scope: &Scope, port: &JoinedPort<'a>, tally: &mut Tally<'a>) -> Joined
    ensures how { joined_view result ≡ spec.joining (binding_of scope.now) (declaration_view port.now.port) (name_view port.now.label) (expr_view port.now.value.now) }
    ensures met { tally.new ≡ after_faults tally.old (spec.port_faults (binding_of scope.now) (port_view port.now)) }
{
    let sound = check_value(scope, port, tally);
    if is_name(port.value) {
        return join_name(&port.port, scope.get(base_name(port.value).name));
    }
    if sound && !names_faulty(scope, port.value) {
        Joined::Assignment
    } else {
        Joined::Nothing
    }
}

/// How each port is joined to its expression, with what is wrong where it is joined to nothing.
pub fn join_all<'a>(
    alloc: Global,
    scope: &Scope,
    ports: &[JoinedPort<'a>],
    tally: &mut Tally<'a>,
) -> Result<Vec<Joined>, NoMemory>
    ensures how { IfOk result (λ found. map joined_view found.items ≡ map (λ j. spec.joining (binding_of scope.now) j.port j.label j.value) (ports_view ports.now)) }
    ensures met { OnOk result (tally.new ≡ after_faults tally.old (flat_map (spec.port_faults (binding_of scope.now)) (ports_view ports.now))) }
{
    let mut found = Vec::new(alloc);
    for port in ports {
        found.push(join(scope, port, tally))?;
    }
    Ok(found)
}
