//! The numbers of line points and counted nodes of statements that are not built.

ghost use Rattle.std.specs.Prelude.{◌≡◌, ◌+◌, ◌<◌, ◌^◌};
ghost use Rattle.flat_design.specs.Numbering as count;
ghost use Rattle.flat_design.specs.Scope.{binding_of};
ghost use Rattle.verilog_tree.specs.Tree.{exprs_of, statements_of, arms_of};
ghost use Rattle.verilog_tree.specs.View.{exprs_view, statement_view, statements_view, arms_view};

use elab_build::{pass_condition_nodes, pass_nodes, take};
use elab_scope::Scope;
use verilog_tree::{Arm, Expr, Statement, StatementForm};

/// Passes the numbers of the line points of a statement.
#[cycle(pass_lines)]
pub fn pass_lines(statement: &Statement, line: &mut u32)
    requires { line.old + count.lines (statement_view statement.now) < 2 ^ 32 }
    ensures { line.new ≡ line.old + count.lines (statement_view statement.now) }
{
    match &*statement.form {
        StatementForm::Block(parts) => pass_all_lines(parts, line),
        StatementForm::If { yes, no, .. } => {
            let _ = take(line);
            pass_lines(yes, line);
            match no {
                Some(no) => pass_lines(no, line),
                None => {}
            }
        }
        StatementForm::Case { arms, .. } => {
            let _ = take(line);
            pass_arm_lines(arms, line)
        }
        StatementForm::For(turns) => {
            let _ = take(line);
            pass_lines(&turns.body, line)
        }
        StatementForm::Set { .. } => {
            let _ = take(line);
        }
        StatementForm::Task | StatementForm::Empty => {}
    }
}

/// Passes the numbers of the line points of all parts of a block.
#[cycle(pass_lines)]
fn pass_all_lines(parts: &[Statement], line: &mut u32)
    requires { line.old + count.all_lines (statements_of (statements_view parts.now)) < 2 ^ 32 }
    ensures { line.new ≡ line.old + count.all_lines (statements_of (statements_view parts.now)) }
{
    for part in parts {
        pass_lines(part, line);
    }
}

/// Passes the numbers of the line points of all arms of a case.
#[cycle(pass_lines)]
fn pass_arm_lines(arms: &[Arm], line: &mut u32)
    requires { line.old + count.item_lines (arms_of (arms_view arms.now)) < 2 ^ 32 }
    ensures { line.new ≡ line.old + count.item_lines (arms_of (arms_view arms.now)) }
{
    for arm in arms {
        pass_lines(&arm.body, line);
    }
}

/// Passes the numbers of the counted nodes of a statement.
#[cycle(pass_statement_nodes)]
pub fn pass_statement_nodes(scope: &Scope, statement: &Statement, nodes: &mut u32)
    requires { nodes.old + count.statement_nodes (binding_of scope.now) (statement_view statement.now) < 2 ^ 32 }
    ensures { nodes.new ≡ nodes.old + count.statement_nodes (binding_of scope.now) (statement_view statement.now) }
{
    match &*statement.form {
        StatementForm::Block(parts) => pass_all_statement_nodes(scope, parts, nodes),
        StatementForm::If { test, yes, no } => {
            pass_condition_nodes(scope, test, nodes);
            pass_statement_nodes(scope, yes, nodes);
            match no {
                Some(no) => pass_statement_nodes(scope, no, nodes),
                None => {}
            }
        }
        StatementForm::Case { on, arms, .. } => {
            pass_nodes(scope, on, nodes);
            pass_arm_nodes(scope, arms, nodes)
        }
        StatementForm::For(turns) => pass_statement_nodes(scope, &turns.body, nodes),
        StatementForm::Set { target, value, .. } => {
            pass_nodes(scope, target, nodes);
            pass_nodes(scope, value, nodes)
        }
        StatementForm::Task | StatementForm::Empty => {}
    }
}

/// Passes the numbers of the counted nodes of all parts of a block.
#[cycle(pass_statement_nodes)]
fn pass_all_statement_nodes(scope: &Scope, parts: &[Statement], nodes: &mut u32)
    requires { nodes.old + count.all_statement_nodes (binding_of scope.now) (statements_of (statements_view parts.now)) < 2 ^ 32 }
    ensures { nodes.new ≡ nodes.old + count.all_statement_nodes (binding_of scope.now) (statements_of (statements_view parts.now)) }
{
    for part in parts {
        pass_statement_nodes(scope, part, nodes);
    }
}

/// Passes the numbers of the counted nodes of all arms of a case, with their labels.
#[cycle(pass_statement_nodes)]
fn pass_arm_nodes(scope: &Scope, arms: &[Arm], nodes: &mut u32)
    requires { nodes.old + count.item_nodes (binding_of scope.now) (arms_of (arms_view arms.now)) < 2 ^ 32 }
    ensures { nodes.new ≡ nodes.old + count.item_nodes (binding_of scope.now) (arms_of (arms_view arms.now)) }
{
    for arm in arms {
        pass_label_nodes(scope, &arm.labels, nodes);
        pass_statement_nodes(scope, &arm.body, nodes);
    }
}

/// Passes the numbers of the counted nodes of the labels of an arm.
fn pass_label_nodes(scope: &Scope, labels: &[Expr], nodes: &mut u32)
    requires { nodes.old + count.all_nodes (binding_of scope.now) (exprs_of (exprs_view labels.now)) < 2 ^ 32 }
    ensures { nodes.new ≡ nodes.old + count.all_nodes (binding_of scope.now) (exprs_of (exprs_view labels.now)) }
{
    for label in labels {
        pass_nodes(scope, label, nodes);
    }
}
