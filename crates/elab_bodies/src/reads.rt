//! The signals that the text of a block reads, which wake it under `*` (IEEE 1364-2001, 9.7.5). The body of a loop without
//! turns is text too.

ghost use Rattle.std.specs.Prelude.{◌≡◌, ◌++◌, IfOk, OnOk};
ghost use Rattle.flat_design.specs.Bodies as spec;
ghost use Rattle.flat_design.specs.Identifiers.{all_identifiers, identifiers};
ghost use Rattle.flat_design.specs.Processes.{listed_signals, signal_numbers};
ghost use Rattle.flat_design.specs.Scope.{binding_of, look_up};
ghost use Rattle.flat_design.specs.Targets.{all_target_reads, target_reads};
ghost use Rattle.verilog_tree.specs.Tree.{arms_of, exprs_of, statements_of};
ghost use Rattle.verilog_tree.specs.View.{arms_view, expr_view, exprs_view, loop_view, statement_view, statements_view};

use cov_host::{NoMemory, Sequence};
use elab_scope::Scope;
use flat_design::Entry;
use std::alloc::Global;
use verilog_tree::{Arm, Expr, ExprForm, For, Statement, StatementForm};

/// The signals that the text of a block reads, by their numbers and in its order.
pub(crate) fn text_signals(
    alloc: Global,
    scope: &Scope,
    text: &Statement,
) -> Result<Sequence<u32>, NoMemory>
    ensures { IfOk result (λ signals. signals ≡ listed_signals (binding_of scope.now) (spec.text_reads (statement_view text.now))) }
{
    let mut signals = Sequence::new(alloc);
    add_statement(scope, text, &mut signals)?;
    Ok(signals)
}

/// Adds what a statement reads.
#[cycle(add_statement)]
fn add_statement(
    scope: &Scope,
    statement: &Statement,
    signals: &mut Sequence<u32>,
) -> Result<(), NoMemory>
    ensures { OnOk result (signals.new ≡ signals.old ++ listed_signals (binding_of scope.now) (spec.text_reads (statement_view statement.now))) }
{
    match &*statement.form {
        StatementForm::Block(parts) => add_statements(scope, parts, signals),
        StatementForm::If { test, yes, no } => {
            add_expr(scope, test, signals)?;
            add_statement(scope, yes, signals)?;
            match no {
                Some(no) => add_statement(scope, no, signals),
                None => Ok(()),
            }
        }
        StatementForm::Case { on, arms, .. } => {
            add_expr(scope, on, signals)?;
            add_arms(scope, arms, signals)
        }
        StatementForm::For(header) => {
            add_header(scope, header, signals)?;
            add_statement(scope, &header.body, signals)
        }
        StatementForm::Set { target, value, .. } => add_set(scope, target, value, signals),
        StatementForm::Task | StatementForm::Empty => Ok(()),
    }
}

/// Adds what several statements read.
#[cycle(add_statement)]
fn add_statements(
    scope: &Scope,
    statements: &[Statement],
    signals: &mut Sequence<u32>,
) -> Result<(), NoMemory>
    ensures { OnOk result (signals.new ≡ signals.old ++ listed_signals (binding_of scope.now) (spec.all_text_reads (statements_of (statements_view statements.now)))) }
{
    for statement in statements {
        add_statement(scope, statement, signals)?;
    }
    Ok(())
}

/// Adds what the arms of a case read.
#[cycle(add_statement)]
fn add_arms(scope: &Scope, arms: &[Arm], signals: &mut Sequence<u32>) -> Result<(), NoMemory>
    ensures { OnOk result (signals.new ≡ signals.old ++ listed_signals (binding_of scope.now) (spec.items_text_reads (arms_of (arms_view arms.now)))) }
{
    for arm in arms {
        add_exprs(scope, &arm.labels, signals)?;
        add_statement(scope, &arm.body, signals)?;
    }
    Ok(())
}

/// Adds what the header of a loop reads.
fn add_header(scope: &Scope, header: &For, signals: &mut Sequence<u32>) -> Result<(), NoMemory>
    ensures { OnOk result (signals.new ≡ signals.old ++ listed_signals (binding_of scope.now) (spec.header_reads (loop_view header.now).0)) }
{
    add_set(scope, &header.name, &header.first, signals)?;
    add_expr(scope, &header.test, signals)?;
    add_set(scope, &header.target, &header.step, signals)
}

/// Adds what an assignment reads: the indexes of its target, and its value.
fn add_set(
    scope: &Scope,
    target: &Expr,
    value: &Expr,
    signals: &mut Sequence<u32>,
) -> Result<(), NoMemory>
    ensures { OnOk result (signals.new ≡ signals.old ++ listed_signals (binding_of scope.now) (target_reads (expr_view target.now) ++ identifiers (expr_view value.now))) }
{
    add_target(scope, target, signals)?;
    add_expr(scope, value, signals)
}

/// Adds what an expression reads.
#[cycle(add_expr)]
fn add_expr(scope: &Scope, expr: &Expr, signals: &mut Sequence<u32>) -> Result<(), NoMemory>
    ensures { OnOk result (signals.new ≡ signals.old ++ listed_signals (binding_of scope.now) (identifiers (expr_view expr.now))) }
{
    match &*expr.form {
        ExprForm::Number(_) => Ok(()),
        ExprForm::Name(name) => add_name(scope, name.as_slice(), signals),
        ExprForm::Unary(_, a) | ExprForm::Sign(_, a) | ExprForm::Paren(a) => {
            add_expr(scope, a, signals)
        }
        ExprForm::Bit { of: a, index: b } | ExprForm::Binary(_, a, b) => {
            add_two(scope, a, b, signals)
        }
        ExprForm::Part { of, high, low, .. } => add_three(scope, of, high, low, signals),
        ExprForm::Slide {
            of,
            base,
            width,
            ..
        } => add_three(scope, of, base, width, signals),
        ExprForm::Choice { test, yes, no } => add_three(scope, test, yes, no, signals),
        ExprForm::Concat(parts) => add_exprs(scope, parts, signals),
        ExprForm::Repeat(count, parts) => {
            add_expr(scope, count, signals)?;
            add_exprs(scope, parts, signals)
        }
    }
}

/// Adds what two expressions read.
#[cycle(add_expr)]
fn add_two(scope: &Scope, a: &Expr, b: &Expr, signals: &mut Sequence<u32>) -> Result<(), NoMemory>
    ensures { OnOk result (signals.new ≡ signals.old ++ listed_signals (binding_of scope.now) (identifiers (expr_view a.now) ++ identifiers (expr_view b.now))) }
{
    add_expr(scope, a, signals)?;
    add_expr(scope, b, signals)
}

/// Adds what three expressions read.
#[cycle(add_expr)]
fn add_three(
    scope: &Scope,
    a: &Expr,
    b: &Expr,
    c: &Expr,
    signals: &mut Sequence<u32>,
) -> Result<(), NoMemory>
    ensures { OnOk result (signals.new ≡ signals.old ++ listed_signals (binding_of scope.now) (identifiers (expr_view a.now) ++ identifiers (expr_view b.now) ++ identifiers (expr_view c.now))) }
{
    add_two(scope, a, b, signals)?;
    add_expr(scope, c, signals)
}

/// Adds what several expressions read.
#[cycle(add_expr)]
fn add_exprs(scope: &Scope, exprs: &[Expr], signals: &mut Sequence<u32>) -> Result<(), NoMemory>
    ensures { OnOk result (signals.new ≡ signals.old ++ listed_signals (binding_of scope.now) (all_identifiers (exprs_of (exprs_view exprs.now)))) }
{
    for expr in exprs {
        add_expr(scope, expr, signals)?;
    }
    Ok(())
}

/// Adds what the indexes of a target read.
#[cycle(add_target)]
fn add_target(scope: &Scope, target: &Expr, signals: &mut Sequence<u32>) -> Result<(), NoMemory>
    ensures { OnOk result (signals.new ≡ signals.old ++ listed_signals (binding_of scope.now) (target_reads (expr_view target.now))) }
{
    match &*target.form {
        ExprForm::Bit { of, index } => {
            add_target(scope, of, signals)?;
            add_expr(scope, index, signals)
        }
        ExprForm::Part { of, high, low, .. } => {
            add_target(scope, of, signals)?;
            add_two(scope, high, low, signals)
        }
        ExprForm::Slide {
            of,
            base,
            width,
            ..
        } => {
            add_target(scope, of, signals)?;
            add_two(scope, base, width, signals)
        }
        ExprForm::Concat(parts) => add_targets(scope, parts, signals),
        _ => Ok(()),
    }
}

/// Adds what the indexes of several targets read.
#[cycle(add_target)]
fn add_targets(scope: &Scope, targets: &[Expr], signals: &mut Sequence<u32>) -> Result<(), NoMemory>
    ensures { OnOk result (signals.new ≡ signals.old ++ listed_signals (binding_of scope.now) (all_target_reads (exprs_of (exprs_view targets.now)))) }
{
    for target in targets {
        add_target(scope, target, signals)?;
    }
    Ok(())
}

/// Adds the signal that a name means, if it means one.
fn add_name(scope: &Scope, name: &[u8], signals: &mut Sequence<u32>) -> Result<(), NoMemory>
    ensures { OnOk result (signals.new ≡ signals.old ++ signal_numbers (look_up (binding_of scope.now) name.now)) }
{
    if let Some(Entry::Signal(signal)) = scope.get(name) {
        signals.push(signal.number)?;
    }
    Ok(())
}
