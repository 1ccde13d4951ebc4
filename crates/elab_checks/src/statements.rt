//! What is found in statements: faults, what the limits count, and writings (IEEE 1364-2001 clause 9).

ghost use Rattle.std.specs.Prelude.{◌≡◌, ◌∷◌, ◌++◌, OnOk};
ghost use Rattle.elab_scope.specs.Tally.{after_all};
ghost use Rattle.flat_design.specs.Bodies as spec;
ghost use Rattle.flat_design.specs.Bodies.{in_turn, met_faults, met_text, met_turns, met_writings};
ghost use Rattle.flat_design.specs.Expressions.{faults};
ghost use Rattle.flat_design.specs.Loops as loops;
ghost use Rattle.flat_design.specs.Scope.{binding_of};
ghost use Rattle.flat_design.specs.Targets.{target_faults};
ghost use Rattle.verilog_tree.specs.Tree.{arms_of, statements_of};
ghost use Rattle.verilog_tree.specs.View.{arms_view, expr_view, loop_view, statement_view, statements_view};

use crate::expressions::{check, check_all};
use crate::loops::{put_back, turns, variable_name};
use crate::targets::check_target;
use crate::writings::{Writer, push_writings};
use cov_host::NoMemory;
use elab_scope::{Scope, Tally};
use flat_design::{Entry, Mode};
use std::alloc::Global;
use verilog_tree::{Arm, Expr, For, Statement, StatementForm};

/// Reports what is found in a statement of a process, where loops are replaced by their turns. The scope is as before.
#[cycle(statement)]
pub fn check_statement<'a>(
    alloc: Global,
    scope: &mut Scope,
    mode: Mode,
    process: u32,
    statement: &'a Statement,
    tally: &mut Tally<'a>,
) -> Result<(), NoMemory>
    ensures met { OnOk result (tally.new ≡ after_all tally.old (spec.met (binding_of scope.old) mode process (statement_view statement.now))) }
    ensures kept { OnOk result (binding_of scope.new ≡ binding_of scope.old) }
{
    if tally.is_ended() {
        return Ok(());
    }
    tally.statement(statement.place);
    match &*statement.form {
        StatementForm::Block(parts) => {
            check_statements(alloc, scope, mode, process, parts, tally)
        }
        StatementForm::If { test, yes, no } => {
            tally.expression(statement.place, test);
            check(scope, test, tally);
            check_statement(alloc, scope, mode, process, yes, tally)?;
            match no {
                Some(no) => check_statement(alloc, scope, mode, process, no, tally),
                None => Ok(()),
            }
        }
        StatementForm::Case { on, arms, .. } => {
            tally.case(statement.place, on, arms);
            check(scope, on, tally);
            check_arms(alloc, scope, mode, process, arms, tally)
        }
        StatementForm::For(header) => check_turns(alloc, scope, mode, process, header, tally),
        StatementForm::Set {
            target,
            blocking,
            value,
        } => {
            tally.assignment(statement.place, target, value);
            let writer = Writer {
                blocking: *blocking,
                continuous: false,
                process,
            };
            check_assignment(alloc, scope, mode, writer, target, value, tally)
        }
        StatementForm::Task | StatementForm::Empty => Ok(()),
    }
}

/// Reports what is found in statements in order (9.8.1).
#[cycle(statement)]
fn check_statements<'a>(
    alloc: Global,
    scope: &mut Scope,
    mode: Mode,
    process: u32,
    statements: &'a [Statement],
    tally: &mut Tally<'a>,
) -> Result<(), NoMemory>
    ensures met { OnOk result (tally.new ≡ after_all tally.old (spec.all_met (binding_of scope.old) mode process (statements_of (statements_view statements.now)))) }
    ensures kept { OnOk result (binding_of scope.new ≡ binding_of scope.old) }
{
    for statement in statements {
        check_statement(alloc, scope, mode, process, statement, tally)?;
    }
    Ok(())
}

/// Reports what is found in the arms of a case with their labels (9.5).
#[cycle(statement)]
fn check_arms<'a>(
    alloc: Global,
    scope: &mut Scope,
    mode: Mode,
    process: u32,
    arms: &'a [Arm],
    tally: &mut Tally<'a>,
) -> Result<(), NoMemory>
    ensures met { OnOk result (tally.new ≡ after_all tally.old (spec.items_met (binding_of scope.old) mode process (arms_of (arms_view arms.now)))) }
    ensures kept { OnOk result (binding_of scope.new ≡ binding_of scope.old) }
{
    for arm in arms {
        check_all(scope, &arm.labels, tally);
        check_statement(alloc, scope, mode, process, &arm.body, tally)?;
    }
    Ok(())
}

/// Reports what is found in a loop: the faults of its header, and its body in each turn (9.6).
#[cycle(statement)]
fn check_turns<'a>(
    alloc: Global,
    scope: &mut Scope,
    mode: Mode,
    process: u32,
    header: &'a For,
    tally: &mut Tally<'a>,
) -> Result<(), NoMemory>
    ensures met { OnOk result (tally.new ≡ after_all tally.old (met_faults (loops.turn_faults (binding_of scope.old) (loop_view header.now).0) ++ met_text (loop_view header.now).0.place (loops.turns_size (binding_of scope.old) (loop_view header.now).0) ∷ met_turns (loops.turns (binding_of scope.old) (loop_view header.now).0) (λ v. spec.met (in_turn (loop_view header.now).0 v (binding_of scope.old)) mode process (loop_view header.now).1))) }
    ensures kept { OnOk result (binding_of scope.new ≡ binding_of scope.old) }
{
    let values = turns(alloc, scope, header, tally)?;
    let variable = variable_name(alloc, header)?;
    let before = scope.get(variable.as_slice()).copied();
    for value in values.as_slice() {
        if tally.is_ended() {
            break;
        }
        scope.insert(&variable, Entry::Turn(*value))?;
        check_statement(alloc, scope, mode, process, &header.body, tally)?;
    }
    put_back(scope, &variable, before)
}

/// Reports what is found in an assignment: the faults of its target and of its value, and what it writes (6.1, 9.2).
fn check_assignment<'a>(
    alloc: Global,
    scope: &Scope,
    mode: Mode,
    writer: Writer,
    target: &'a Expr,
    value: &'a Expr,
    tally: &mut Tally<'a>,
) -> Result<(), NoMemory>
    ensures { OnOk result (tally.new ≡ after_all tally.old (met_faults (target_faults (binding_of scope.now) mode (expr_view target.now) ++ faults (binding_of scope.now) (expr_view value.now)) ++ met_writings (binding_of scope.now) mode writer.blocking writer.continuous writer.process (expr_view target.now))) }
{
    let sound = check_target(scope, mode, target, tally);
    check(scope, value, tally);
    push_writings(alloc, scope, mode, writer, target, sound, tally)
}
