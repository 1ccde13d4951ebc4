//! The signals that a list names and a body assigns.

ghost use Rattle.std.specs.Prelude.{◌≡◌, ◌++◌, map, OnOk};
ghost use Rattle.elab_processes.specs.Listed.{has};
ghost use Rattle.flat_design.specs.Bodies as spec;
ghost use Rattle.flat_design.specs.Identifiers.{base_name as spec_base_name};
ghost use Rattle.flat_design.specs.Loops as loops;
ghost use Rattle.flat_design.specs.Processes.{listed_signals, signal_numbers};
ghost use Rattle.flat_design.specs.Scope.{binding_of, look_up};
ghost use Rattle.flat_design.specs.Targets.{all_leaves, leaves};
ghost use Rattle.verilog_tree.specs.Tree.{arms_of, exprs_of, statements_of};
ghost use Rattle.verilog_tree.specs.View.{arms_view, expr_view, exprs_view, loop_view, statement_view, statements_view};

use crate::signal_set::SignalSet;
use cov_host::NoMemory;
use elab_checks::{put_back, turn_values, variable_name};
use elab_scope::{Scope, base_name};
use flat_design::Entry;
use std::alloc::Global;
use verilog_tree::{Arm, Expr, ExprForm, For, Named, Statement, StatementForm};

/// Adds the signals that a statement assigns, where loops are replaced by their turns. The scope is as before.
#[cycle(add_assigned)]
pub(crate) fn add_assigned(
    alloc: Global,
    scope: &mut Scope,
    statement: &Statement,
    known: &mut SignalSet,
) -> Result<(), NoMemory>
    ensures assigned { OnOk result (has known.new ≡ has (listed_signals (binding_of scope.old) (spec.assigned (binding_of scope.old) (statement_view statement.now)) ++ known.old)) }
    ensures kept { OnOk result (binding_of scope.new ≡ binding_of scope.old) }
{
    match &*statement.form {
        StatementForm::Block(parts) => add_all_assigned(alloc, scope, parts, known),
        StatementForm::If { yes, no, .. } => {
            add_assigned(alloc, scope, yes, known)?;
            match no {
                Some(no) => add_assigned(alloc, scope, no, known),
                None => Ok(()),
            }
        }
        StatementForm::Case { arms, .. } => add_arms(alloc, scope, arms, known),
        StatementForm::For(header) => add_turns(alloc, scope, header, known),
        StatementForm::Set { target, .. } => add_targets(scope, target, known),
        StatementForm::Task | StatementForm::Empty => Ok(()),
    }
}

/// Adds the signals that statements assign, in order.
#[cycle(add_assigned)]
fn add_all_assigned(
    alloc: Global,
    scope: &mut Scope,
    statements: &[Statement],
    known: &mut SignalSet,
) -> Result<(), NoMemory>
    ensures assigned { OnOk result (has known.new ≡ has (listed_signals (binding_of scope.old) (spec.all_assigned (binding_of scope.old) (statements_of (statements_view statements.now))) ++ known.old)) }
    ensures kept { OnOk result (binding_of scope.new ≡ binding_of scope.old) }
{
    for statement in statements {
        add_assigned(alloc, scope, statement, known)?;
    }
    Ok(())
}

/// Adds the signals that the arms of a case assign.
#[cycle(add_assigned)]
fn add_arms(
    alloc: Global,
    scope: &mut Scope,
    arms: &[Arm],
    known: &mut SignalSet,
) -> Result<(), NoMemory>
    ensures assigned { OnOk result (has known.new ≡ has (listed_signals (binding_of scope.old) (spec.items_assigned (binding_of scope.old) (arms_of (arms_view arms.now))) ++ known.old)) }
    ensures kept { OnOk result (binding_of scope.new ≡ binding_of scope.old) }
{
    for arm in arms {
        add_assigned(alloc, scope, &arm.body, known)?;
    }
    Ok(())
}

/// Adds the signals that the body of a loop assigns in each turn.
#[cycle(add_assigned)]
fn add_turns(
    alloc: Global,
    scope: &mut Scope,
    header: &For,
    known: &mut SignalSet,
) -> Result<(), NoMemory>
    ensures assigned { OnOk result (has known.new ≡ has (listed_signals (binding_of scope.old) (spec.names_in_turns (loops.turns (binding_of scope.old) (loop_view header.now).0) (λ v. spec.assigned (spec.in_turn (loop_view header.now).0 v (binding_of scope.old)) (loop_view header.now).1)) ++ known.old)) }
    ensures kept { OnOk result (binding_of scope.new ≡ binding_of scope.old) }
{
    let values = turn_values(alloc, scope, header)?;
    let variable = variable_name(alloc, header)?;
    let before = scope.get(variable.as_slice()).copied();
    for value in values.as_slice() {
        scope.insert(&variable, Entry::Turn(*value))?;
        add_assigned(alloc, scope, &header.body, known)?;
    }
    put_back(scope, &variable, before)
}

/// Adds the signals that a target writes.
#[cycle(add_targets)]
fn add_targets(scope: &Scope, target: &Expr, known: &mut SignalSet) -> Result<(), NoMemory>
    ensures { OnOk result (has known.new ≡ has (listed_signals (binding_of scope.now) (map spec_base_name (leaves (expr_view target.now))) ++ known.old)) }
{
    match &*target.form {
        ExprForm::Concat(parts) => add_all_targets(scope, parts, known),
        _ => add_name(scope, base_name(target).name, known),
    }
}

/// Adds the signals of several targets.
#[cycle(add_targets)]
fn add_all_targets(scope: &Scope, targets: &[Expr], known: &mut SignalSet) -> Result<(), NoMemory>
    ensures { OnOk result (has known.new ≡ has (listed_signals (binding_of scope.now) (map spec_base_name (all_leaves (exprs_of (exprs_view targets.now)))) ++ known.old)) }
{
    for target in targets {
        add_targets(scope, target, known)?;
    }
    Ok(())
}

/// Adds the signals of a list of names.
pub(crate) fn add_listed(
    scope: &Scope,
    names: &[Named],
    known: &mut SignalSet,
) -> Result<(), NoMemory>
    ensures { OnOk result (has known.new ≡ has (listed_signals (binding_of scope.now) names.now ++ known.old)) }
{
    for name in names {
        add_name(scope, name.name.as_slice(), known)?;
    }
    Ok(())
}

/// Adds a name, if it is that of a signal.
fn add_name(scope: &Scope, name: &[u8], known: &mut SignalSet) -> Result<(), NoMemory>
    ensures { OnOk result (has known.new ≡ has (signal_numbers (look_up (binding_of scope.now) name.now) ++ known.old)) }
{
    match scope.get(name) {
        Some(Entry::Signal(signal)) => known.add(signal.number),
        _ => Ok(()),
    }
}
