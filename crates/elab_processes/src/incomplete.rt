//! The reads of a body that its list of names lacks (IEEE 1364-2001 clause 9.7.4).

ghost use Rattle.std.specs.Prelude.{◌≡◌, ◌++◌, OnOk};
ghost use Rattle.elab_processes.specs.Listed.{lacking};
ghost use Rattle.elab_scope.specs.Tally.{after_faults};
ghost use Rattle.elab_scope.specs.View.{name_view};
ghost use Rattle.flat_design.specs.Bodies as spec;
ghost use Rattle.flat_design.specs.Fault.{fault_at, fault_if};
ghost use Rattle.flat_design.specs.Identifiers.{all_identifiers, identifiers};
ghost use Rattle.flat_design.specs.Loops as loops;
ghost use Rattle.flat_design.specs.Processes.{lacks};
ghost use Rattle.flat_design.specs.Scope.{binding_of, look_up};
ghost use Rattle.flat_design.specs.Targets.{all_target_reads, target_reads};
ghost use Rattle.flat_design.specs.declared.fault.ElabKind.TheVariants.{Incomplete};
ghost use Rattle.verilog_tree.specs.Tree.{arms_of, exprs_of, statements_of};
ghost use Rattle.verilog_tree.specs.View.{arms_view, expr_view, exprs_view, loop_view, statement_view, statements_view};

use crate::signal_set::SignalSet;
use cov_host::NoMemory;
use elab_checks::{put_back, turn_values, variable_name};
use elab_scope::{FoundFault, NameAt, Scope, Tally};
use flat_design::{ElabKind, Entry};
use std::alloc::Global;
use verilog_tree::{Arm, Expr, ExprForm, For, Statement, StatementForm};

/// Reports what a statement reads that is not among the known signals, where loops are replaced by their turns. The
/// scope is as before.
#[cycle(check_reads)]
pub(crate) fn check_reads<'a>(
    alloc: Global,
    scope: &mut Scope,
    known: &SignalSet,
    statement: &'a Statement,
    tally: &mut Tally<'a>,
) -> Result<(), NoMemory>
    ensures met { OnOk result (tally.new ≡ after_faults tally.old (lacking (binding_of scope.old) known.now (spec.reads (binding_of scope.old) (statement_view statement.now)))) }
    ensures kept { OnOk result (binding_of scope.new ≡ binding_of scope.old) }
{
    match &*statement.form {
        StatementForm::Block(parts) => check_all_reads(alloc, scope, known, parts, tally),
        StatementForm::If { test, yes, no } => {
            check_names(scope, known, test, tally);
            check_reads(alloc, scope, known, yes, tally)?;
            match no {
                Some(no) => check_reads(alloc, scope, known, no, tally),
                None => Ok(()),
            }
        }
        StatementForm::Case { on, arms, .. } => {
            check_names(scope, known, on, tally);
            check_arms(alloc, scope, known, arms, tally)
        }
        StatementForm::For(header) => check_turns(alloc, scope, known, header, tally),
        StatementForm::Set { target, value, .. } => {
            check_target_names(scope, known, target, tally);
            check_names(scope, known, value, tally);
            Ok(())
        }
        StatementForm::Task | StatementForm::Empty => Ok(()),
    }
}

/// Reports what statements read that is not among the known signals, in order.
#[cycle(check_reads)]
fn check_all_reads<'a>(
    alloc: Global,
    scope: &mut Scope,
    known: &SignalSet,
    statements: &'a [Statement],
    tally: &mut Tally<'a>,
) -> Result<(), NoMemory>
    ensures met { OnOk result (tally.new ≡ after_faults tally.old (lacking (binding_of scope.old) known.now (spec.all_reads (binding_of scope.old) (statements_of (statements_view statements.now))))) }
    ensures kept { OnOk result (binding_of scope.new ≡ binding_of scope.old) }
{
    for statement in statements {
        check_reads(alloc, scope, known, statement, tally)?;
    }
    Ok(())
}

/// Reports what the arms of a case and their labels read that is not among the known signals.
#[cycle(check_reads)]
fn check_arms<'a>(
    alloc: Global,
    scope: &mut Scope,
    known: &SignalSet,
    arms: &'a [Arm],
    tally: &mut Tally<'a>,
) -> Result<(), NoMemory>
    ensures met { OnOk result (tally.new ≡ after_faults tally.old (lacking (binding_of scope.old) known.now (spec.items_reads (binding_of scope.old) (arms_of (arms_view arms.now))))) }
    ensures kept { OnOk result (binding_of scope.new ≡ binding_of scope.old) }
{
    for arm in arms {
        check_all_names(scope, known, &arm.labels, tally);
        check_reads(alloc, scope, known, &arm.body, tally)?;
    }
    Ok(())
}

/// Reports what the body of a loop reads in each turn that is not among the known signals.
#[cycle(check_reads)]
fn check_turns<'a>(
    alloc: Global,
    scope: &mut Scope,
    known: &SignalSet,
    header: &'a For,
    tally: &mut Tally<'a>,
) -> Result<(), NoMemory>
    ensures met { OnOk result (tally.new ≡ after_faults tally.old (lacking (binding_of scope.old) known.now (spec.names_in_turns (loops.turns (binding_of scope.old) (loop_view header.now).0) (λ v. spec.reads (spec.in_turn (loop_view header.now).0 v (binding_of scope.old)) (loop_view header.now).1)))) }
    ensures kept { OnOk result (binding_of scope.new ≡ binding_of scope.old) }
{
    let values = turn_values(alloc, scope, header)?;
    let variable = variable_name(alloc, header)?;
    let before = scope.get(variable.as_slice()).copied();
    for value in values.as_slice() {
        scope.insert(&variable, Entry::Turn(*value))?;
        check_reads(alloc, scope, known, &header.body, tally)?;
    }
    put_back(scope, &variable, before)
}

/// Reports the names of an expression that are not among the known signals.
#[cycle(check_names)]
fn check_names<'a>(scope: &Scope, known: &SignalSet, expr: &'a Expr, tally: &mut Tally<'a>)
    ensures { tally.new ≡ after_faults tally.old (lacking (binding_of scope.now) known.now (identifiers (expr_view expr.now))) }
{
    match &*expr.form {
        ExprForm::Number(_) => {}
        ExprForm::Name(name) => {
            let name = NameAt {
                name: name.as_slice(),
                place: expr.place,
            };
            check_name(scope, known, name, tally);
        }
        ExprForm::Bit { of, index } => check_two(scope, known, of, index, tally),
        ExprForm::Part { of, high, low, .. } => check_three(scope, known, of, high, low, tally),
        ExprForm::Slide {
            of,
            base,
            width,
            ..
        } => check_three(scope, known, of, base, width, tally),
        ExprForm::Unary(_, a) | ExprForm::Sign(_, a) | ExprForm::Paren(a) => {
            check_names(scope, known, a, tally);
        }
        ExprForm::Binary(_, a, b) => check_two(scope, known, a, b, tally),
        ExprForm::Choice { test, yes, no } => check_three(scope, known, test, yes, no, tally),
        ExprForm::Concat(parts) => check_all_names(scope, known, parts, tally),
        ExprForm::Repeat(count, parts) => {
            check_names(scope, known, count, tally);
            check_all_names(scope, known, parts, tally);
        }
    }
}

/// Reports the names of two expressions that are not among the known signals.
#[cycle(check_names)]
fn check_two<'a>(scope: &Scope, known: &SignalSet, a: &'a Expr, b: &'a Expr, tally: &mut Tally<'a>)
    ensures { tally.new ≡ after_faults tally.old (lacking (binding_of scope.now) known.now (identifiers (expr_view a.now) ++ identifiers (expr_view b.now))) }
{
    check_names(scope, known, a, tally);
    check_names(scope, known, b, tally);
}

/// Reports the names of three expressions that are not among the known signals.
#[cycle(check_names)]
fn check_three<'a>(
    scope: &Scope,
    known: &SignalSet,
    a: &'a Expr,
    b: &'a Expr,
    c: &'a Expr,
    tally: &mut Tally<'a>,
)
    ensures { tally.new ≡ after_faults tally.old (lacking (binding_of scope.now) known.now (identifiers (expr_view a.now) ++ identifiers (expr_view b.now) ++ identifiers (expr_view c.now))) }
{
    check_names(scope, known, a, tally);
    check_names(scope, known, b, tally);
    check_names(scope, known, c, tally);
}

/// Reports the names of all expressions that are not among the known signals.
#[cycle(check_names)]
fn check_all_names<'a>(scope: &Scope, known: &SignalSet, exprs: &'a [Expr], tally: &mut Tally<'a>)
    ensures { tally.new ≡ after_faults tally.old (lacking (binding_of scope.now) known.now (all_identifiers (exprs_of (exprs_view exprs.now)))) }
{
    for expr in exprs {
        check_names(scope, known, expr, tally);
    }
}

/// Reports the names in the indexes of a target that are not among the known signals.
#[cycle(check_target_names)]
fn check_target_names<'a>(scope: &Scope, known: &SignalSet, expr: &'a Expr, tally: &mut Tally<'a>)
    ensures { tally.new ≡ after_faults tally.old (lacking (binding_of scope.now) known.now (target_reads (expr_view expr.now))) }
{
    match &*expr.form {
        ExprForm::Bit { of, index } => {
            check_target_names(scope, known, of, tally);
            check_names(scope, known, index, tally);
        }
        ExprForm::Part { of, high, low, .. } => {
            check_target_names(scope, known, of, tally);
            check_two(scope, known, high, low, tally);
        }
        ExprForm::Slide {
            of,
            base,
            width,
            ..
        } => {
            check_target_names(scope, known, of, tally);
            check_two(scope, known, base, width, tally);
        }
        ExprForm::Concat(parts) => check_all_target_names(scope, known, parts, tally),
        _ => {}
    }
}

/// Reports the names in the indexes of several targets that are not among the known signals.
#[cycle(check_target_names)]
fn check_all_target_names<'a>(
    scope: &Scope,
    known: &SignalSet,
    exprs: &'a [Expr],
    tally: &mut Tally<'a>,
)
    ensures { tally.new ≡ after_faults tally.old (lacking (binding_of scope.now) known.now (all_target_reads (exprs_of (exprs_view exprs.now)))) }
{
    for expr in exprs {
        check_target_names(scope, known, expr, tally);
    }
}

/// Reports a name that is not among the known signals.
fn check_name<'a>(scope: &Scope, known: &SignalSet, name: NameAt<'a>, tally: &mut Tally<'a>)
    ensures { tally.new ≡ after_faults tally.old (fault_if (lacks (look_up (binding_of scope.now) name.entry.name.now) known.now) (fault_at Incomplete (name_view name.entry))) }
{
    let lacks = match scope.get(name.name) {
        Some(Entry::Signal(signal)) => !known.has(signal.number),
        Some(Entry::Memory(_)) => true,
        _ => false,
    };
    if lacks {
        tally.fault(FoundFault::at(ElabKind::Incomplete, name));
    }
}
