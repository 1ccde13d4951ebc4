#![tactic(auto, using(crate::proofs::Taking::names_then, crate::proofs::Taking::names_none))]
//! What statements mention.

ghost use Rattle.std.specs.Prelude.{◌≡◌, ◌++◌, map};
ghost use Rattle.design_model.specs.Design.{body};
ghost use Rattle.design_model.specs.Execution.{is_default};
ghost use Rattle.design_model.specs.View.{arms_of, process_view, stmt_view, stmts_of};
ghost use Rattle.process_names.specs.Names.{all_body_names, arm_names, arm_view, body_names, default_names};
ghost use Rattle.body_names.specs.Taken.{TakesNames};

use crate::Names;
use crate::targets::name_target;
use crate::terms::{name_term, name_terms};
use design_model::{CaseArm, Process, Stmt, StmtForm};

/// Names these signals and memories, and then what the body of a process mentions.
pub fn name_all<N: Names>(things: &[u32], process: &Process, names: &mut N)
    requires { N.ready names.old }
    ensures ready { N.ready names.new }
    ensures named { TakesNames N.named names.old (things.now ++ body_names (body (process_view process.now))) names.new }
{
    name_each(things, names);
    name_body(process, names);
}

/// Names these signals and memories.
fn name_each<N: Names>(things: &[u32], names: &mut N)
    requires { N.ready names.old }
    ensures ready { N.ready names.new }
    ensures named { TakesNames N.named names.old things.now names.new }
{
    for thing in things {
        names.name(*thing);
    }
}

/// Names what the body of a process mentions. That of an Assign is its one assignment.
fn name_body<N: Names>(process: &Process, names: &mut N)
    requires { N.ready names.old }
    ensures ready { N.ready names.new }
    ensures named { TakesNames N.named names.old (body_names (body (process_view process.now))) names.new }
{
    match process {
        Process::Assign { target, value, .. } => {
            name_target(target, names);
            name_term(value, names);
        }
        Process::Comb { body, .. } | Process::Clocked { body, .. } => name_stmt(body, names),
    }
}

/// Names what a statement mentions.
#[cycle(statements)]
fn name_stmt<N: Names>(stmt: &Stmt, names: &mut N)
    requires { N.ready names.old }
    ensures ready { N.ready names.new }
    ensures named { TakesNames N.named names.old (body_names (stmt_view stmt.now)) names.new }
{
    match &*stmt.form {
        StmtForm::Block(parts) => name_stmts(parts, names),
        StmtForm::If { test, yes, no, .. } => {
            name_term(test, names);
            name_stmt(yes, names);
            if let Some(no) = no {
                name_stmt(no, names);
            }
        }
        StmtForm::Case { on, arms, .. } => {
            name_term(on, names);
            name_arms(arms, names);
            name_default(arms, names);
        }
        StmtForm::Turns { turns, .. } => name_stmts(turns, names),
        StmtForm::Set { target, value, .. } => {
            name_target(target, names);
            name_term(value, names);
        }
        StmtForm::Empty => {}
    }
}

/// Names what statements mention.
#[cycle(statements)]
fn name_stmts<N: Names>(stmts: &[Stmt], names: &mut N)
    requires { N.ready names.old }
    ensures ready { N.ready names.new }
    ensures named { TakesNames N.named names.old (all_body_names (stmts_of (map stmt_view stmts.now))) names.new }
{
    for stmt in stmts {
        name_stmt(stmt, names);
    }
}

/// Names what the labels of a case mention, and after those of an arm what its statement mentions, but not what the default
/// mentions.
#[cycle(statements)]
fn name_arms<N: Names>(arms: &[CaseArm], names: &mut N)
    requires { N.ready names.old }
    ensures ready { N.ready names.new }
    ensures named { TakesNames N.named names.old (arm_names (arms_of (map arm_view arms.now))) names.new }
{
    for arm in arms {
        name_terms(&arm.labels, names);
        if !is_default(arm) {
            name_stmt(&arm.body, names);
        }
    }
}

/// Names what the default of a case mentions.
#[cycle(statements)]
fn name_default<N: Names>(arms: &[CaseArm], names: &mut N)
    requires { N.ready names.old }
    ensures ready { N.ready names.new }
    ensures named { TakesNames N.named names.old (default_names (arms_of (map arm_view arms.now))) names.new }
{
    for arm in arms {
        if is_default(arm) {
            name_stmt(&arm.body, names);
        }
    }
}

/// Whether an arm is a `default`.
fn is_default(arm: &CaseArm) -> bool
    ensures { result ≡ is_default (arm_view arm.now).0 }
{
    arm.labels.is_empty()
}
