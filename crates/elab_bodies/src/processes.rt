//! The processes of items and of joined ports (IEEE 1364-2001 clauses 6.1, 9.7 and 12.3).

ghost use Rattle.std.specs.Prelude.{◌≡◌, ◌≤◌, ◌+◌, ◌<◌, ◌^◌, ℕ, None, IfOk, OnOk};
ghost use Rattle.cov_host.specs.declared.place.Place.{Place};
ghost use Rattle.design_model.specs.Tree as t;
ghost use Rattle.design_model.specs.View.{process_view, stmt_view, target_view, term_view};
ghost use Rattle.elab_bodies.specs.Sound.{IsSoundStatement};
ghost use Rattle.elab_bodies.specs.View.{listed};
ghost use Rattle.elab_build.specs.Sound.{IsClear, IsSound, IsSoundTarget};
ghost use Rattle.elab_scope.specs.Entries.{IsVectorRange};
ghost use Rattle.flat_design.specs.Numbering as count;
ghost use Rattle.flat_design.specs.Processes as spec;
ghost use Rattle.flat_design.specs.Scope.{binding_of, look_up, range_width};
ghost use Rattle.verilog_tree.specs.View.{expr_view, statement_view};
ghost use Rattle.verilog_tree.specs.declared.item.Named.{Named};

use crate::reads::text_signals;
use crate::statements::{statement, target_width};
use crate::uncounted::uncounted;
use cov_host::{NoMemory, Place, Sequence};
use design_model::{Form, Process, Stmt, Target, Term};
use elab_build::{right_side, target};
use elab_scope::{Scope, range_or, span};
use flat_design::{Entry, SignalEntry};
use four_state::Edge;
use std::alloc::Global;
use verilog_tree::{Expr, Named, Statement, When};

/// `assign to = value` in an instance (IEEE 1364-2001, 6.1). Its counted nodes are numbered from `nodes` on.
pub fn continuous_process(
    alloc: Global,
    base: u32,
    scope: &Scope,
    instance: u32,
    to: &Expr,
    value: &Expr,
    nodes: &mut u32,
) -> Result<Process, NoMemory>
    requires base { base ≤ 65536 }
    requires clear { IsClear (binding_of scope.now) }
    requires to { IsSoundTarget (binding_of scope.now) (expr_view to.now) }
    requires value { IsSound (binding_of scope.now) (expr_view value.now) }
    requires few { nodes.old + count.nodes (binding_of scope.now) (expr_view to.now) + count.nodes (binding_of scope.now) (expr_view value.now) < 2 ^ 32 }
    ensures built { IfOk result (λ x. (k : ℕ) (p : Place) → process_view x ≡ (spec.continuous base (binding_of scope.now) instance k p (expr_view to.now) (expr_view value.now) nodes.old).process) }
    ensures counted { OnOk result (nodes.new ≡ nodes.old + count.nodes (binding_of scope.now) (expr_view to.now) + count.nodes (binding_of scope.now) (expr_view value.now)) }
{
    let width = target_width(scope, to);
    let target = target(alloc, base, scope, to, nodes)?;
    let value = right_side(alloc, base, scope, width, value, nodes)?;
    Ok(Process::Assign {
        instance,
        target,
        value,
        counted: true,
    })
}

/// `always @when body` in an instance (IEEE 1364-2001, 9.7). Its line points are numbered from `line` on, and its
/// counted nodes from `nodes` on.
pub fn always_process(
    alloc: Global,
    base: u32,
    scope: &mut Scope,
    instance: u32,
    when: &When,
    body: &Statement,
    line: &mut u32,
    nodes: &mut u32,
) -> Result<Process, NoMemory>
    requires base { base ≤ 65536 }
    requires clear { IsClear (binding_of scope.old) }
    requires sound { IsSoundStatement (binding_of scope.old) (statement_view body.now) }
    requires few_lines { line.old + count.lines (statement_view body.now) < 2 ^ 32 }
    requires few_nodes { nodes.old + count.statement_nodes (binding_of scope.old) (statement_view body.now) < 2 ^ 32 }
    ensures built { IfOk result (λ x. (k : ℕ) (p : Place) → process_view x ≡ (spec.always base (binding_of scope.old) instance k p when.now (statement_view body.now) line.old nodes.old).process) }
    ensures lines { OnOk result (line.new ≡ line.old + count.lines (statement_view body.now)) }
    ensures counted { OnOk result (nodes.new ≡ nodes.old + count.statement_nodes (binding_of scope.old) (statement_view body.now)) }
    ensures kept { OnOk result (binding_of scope.new ≡ binding_of scope.old) }
{
    let flat = statement(alloc, base, scope, body, line, nodes)?;
    Ok(process_of(alloc, scope, instance, when, body, flat)?)
}

/// The process of an `always` block with this text and body.
fn process_of(
    alloc: Global,
    scope: &Scope,
    instance: u32,
    when: &When,
    text: &Statement,
    body: Stmt,
) -> Result<Process, NoMemory>
    ensures { IfOk result (λ x. process_view x ≡ spec.process_of (binding_of scope.now) instance when.now (statement_view text.now) (stmt_view body)) }
{
    match when {
        When::Star => Ok(Process::Comb {
            instance,
            wakes: text_signals(alloc, scope, text)?,
            body,
        }),
        When::Names(names) => Ok(Process::Comb {
            instance,
            wakes: listed_signals(alloc, scope, names.as_slice())?,
            body,
        }),
        When::Edges(edges) => Ok(Process::Clocked {
            instance,
            events: events(alloc, scope, edges.as_slice())?,
            body,
        }),
    }
}

/// The assignment of an input that is joined to an expression: the port's signal is assigned its value (IEEE 1364-2001,
/// 12.3.9). It has no counted nodes.
pub fn joined_input_process(
    alloc: Global,
    base: u32,
    scope: &Scope,
    instance: u32,
    port: SignalEntry,
    value: &Expr,
) -> Result<Process, NoMemory>
    requires base { base ≤ 65536 }
    requires port { IsVectorRange port.range }
    requires sound { IsSound (binding_of scope.now) (expr_view value.now) }
    requires few { count.nodes (binding_of scope.now) (expr_view value.now) < 2 ^ 32 }
    ensures { IfOk result (λ x. (k : ℕ) (p : Place) (label : Named) → process_view x ≡ (spec.joined_input base (binding_of scope.now) instance k p label port (expr_view value.now)).process) }
{
    let mut nodes = 0;
    let width = signal_width(port);
    let counted = right_side(alloc, base, scope, width, value, &mut nodes)?;
    let value = uncounted(alloc, &counted)?;
    Ok(Process::Assign {
        instance,
        target: whole(port.number),
        value,
        counted: false,
    })
}

/// The assignment of an output that is joined to a target: the target is assigned the port's signal (IEEE 1364-2001,
/// 12.3.9). It has no counted nodes.
pub fn joined_output_process(
    alloc: Global,
    base: u32,
    scope: &Scope,
    instance: u32,
    port: SignalEntry,
    to: &Expr,
) -> Result<Process, NoMemory>
    requires base { base ≤ 65536 }
    requires clear { IsClear (binding_of scope.now) }
    requires port { IsVectorRange port.range }
    requires sound { IsSoundTarget (binding_of scope.now) (expr_view to.now) }
    requires few { count.nodes (binding_of scope.now) (expr_view to.now) < 2 ^ 32 }
    ensures { IfOk result (λ x. (k : ℕ) (p : Place) → process_view x ≡ (spec.joined_output base (binding_of scope.now) instance k p port (expr_view to.now)).process) }
{
    let mut nodes = 0;
    let width = signal_width(port).max(target_width(scope, to));
    let value = signal_term(alloc, to.place, width, port)?;
    let target = target(alloc, base, scope, to, &mut nodes)?;
    Ok(Process::Assign {
        instance,
        target,
        value,
        counted: false,
    })
}

/// The signals of a list of names, by their numbers.
fn listed_signals(alloc: Global, scope: &Scope, names: &[Named]) -> Result<Sequence<u32>, NoMemory>
    ensures { IfOk result (λ signals. signals ≡ spec.listed_signals (binding_of scope.now) names.now) }
{
    let mut signals = Sequence::new(alloc);
    for name in names {
        if let Some(signal) = signal_number(scope, name) {
            signals.push(signal)?;
        }
    }
    Ok(signals)
}

/// The edges of an event list, by the numbers of their signals.
fn events(
    alloc: Global,
    scope: &Scope,
    edges: &[(Edge, Named)],
) -> Result<Sequence<(Edge, u32)>, NoMemory>
    ensures { IfOk result (λ events. events ≡ spec.events (binding_of scope.now) edges.now) }
{
    let mut events = Sequence::new(alloc);
    for (edge, name) in edges {
        if let Some(signal) = signal_number(scope, name) {
            events.push((*edge, signal))?;
        }
    }
    Ok(events)
}

/// The number of the signal that a name means.
fn signal_number(scope: &Scope, name: &Named) -> Option<u32>
    ensures { listed result ≡ spec.signal_numbers (look_up (binding_of scope.now) name.now.name) }
{
    match scope.get(name.name.as_slice()) {
        Some(Entry::Signal(signal)) => Some(signal.number),
        _ => None,
    }
}

/// How many bits a signal has.
pub(crate) fn signal_width(signal: SignalEntry) -> u8
    requires { IsVectorRange signal.range }
    ensures { result ≡ range_width signal.range }
{
    span(range_or(signal.range)) as u8
}

/// A whole signal as a target.
pub(crate) fn whole(signal: u32) -> Target
    ensures { target_view result ≡ t.all_of signal }
{
    Target::Whole(signal)
}

/// The value of a signal at a place, in a context of this width and of the signal's sign.
fn signal_term(
    alloc: Global,
    place: Place,
    width: u8,
    signal: SignalEntry,
) -> Result<Term, NoMemory>
    ensures { IfOk result (λ x. term_view x ≡ t.signal (record { place = place; width = width; signed = signal.signed; node = None }) signal.number) }
{
    Ok(Term {
        place,
        width,
        signed: signal.signed,
        node: None,
        form: Box::new(alloc, Form::Signal(signal.number))?,
    })
}
