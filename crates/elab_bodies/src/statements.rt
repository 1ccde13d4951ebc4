//! The flat statements that statements become (IEEE 1364-2001 clause 9).

ghost use Rattle.std.specs.Prelude.{◌≡◌, ◌≤◌, ◌+◌, ◌<◌, ◌^◌, ℕ, List, IfOk, OnOk, bytes_eq, false, map, true};
ghost use Rattle.design_model.specs.View.{arms_of as flat_arms_of, stmt_view, stmts_of, term_view, terms_of};
ghost use Rattle.elab_bodies.specs.Sound.{IsSoundStatement, AreSoundStatements, AreSoundItems, InTurns};
ghost use Rattle.elab_bodies.specs.View.{arm_view, else_view, other_view};
ghost use Rattle.elab_build.specs.Sound.{IsClear, IsSound, AreSound, IsSoundTarget};
ghost use Rattle.flat_design.specs.Bodies as spec;
ghost use Rattle.flat_design.specs.Fault.{none};
ghost use Rattle.flat_design.specs.Loops as loops;
ghost use Rattle.flat_design.specs.Numbering as count;
ghost use Rattle.flat_design.specs.Scope as of;
ghost use Rattle.flat_design.specs.Scope.{binding_of, with_turn};
ghost use Rattle.verilog_tree.specs.Tree as t;
ghost use Rattle.verilog_tree.specs.Tree.{exprs_of, statements_of, arms_of};
ghost use Rattle.verilog_tree.specs.View.{expr_view, exprs_view, statement_view, statements_view, arms_view, loop_view};

use crate::forms;
use crate::numbers::{pass_lines, pass_statement_nodes};
use cov_host::{Name, NoMemory, Place};
use design_model::{CaseArm, Stmt, Term};
use elab_build::{condition_term, right_side, shape_of, take, target, term};
use elab_checks::{put_back, variable_name};
use elab_const::{ConstFault, Shape, Turns};
use elab_scope::Scope;
use flat_design::Entry;
use four_state::{CaseKind, Four};
use std::alloc::Global;
use verilog_tree::{Arm, Expr, For, Statement, StatementForm};

/// The flat statement. Memories are numbered from `base` on, its line points from `line` on, and its counted nodes from
/// `nodes` on.
#[cycle(statement)]
pub fn statement(
    alloc: Global,
    base: u32,
    scope: &mut Scope,
    statement: &Statement,
    line: &mut u32,
    nodes: &mut u32,
) -> Result<Stmt, NoMemory>
    requires base { base ≤ 65536 }
    requires clear { IsClear (binding_of scope.old) }
    requires sound { IsSoundStatement (binding_of scope.old) (statement_view statement.now) }
    requires few_lines { line.old + count.lines (statement_view statement.now) < 2 ^ 32 }
    requires few_nodes { nodes.old + count.statement_nodes (binding_of scope.old) (statement_view statement.now) < 2 ^ 32 }
    ensures built { IfOk result (λ x. stmt_view x ≡ spec.statement base (binding_of scope.old) (statement_view statement.now) line.old nodes.old) }
    ensures lines { OnOk result (line.new ≡ line.old + count.lines (statement_view statement.now)) }
    ensures counted { OnOk result (nodes.new ≡ nodes.old + count.statement_nodes (binding_of scope.old) (statement_view statement.now)) }
    ensures kept { OnOk result (binding_of scope.new ≡ binding_of scope.old) }
{
    let place = statement.place;
    match &*statement.form {
        StatementForm::Block(parts) => {
            let parts = statements(alloc, base, scope, parts, line, nodes)?;
            forms::block(alloc, place, parts)
        }
        StatementForm::If { test, yes, no } => {
            branch(alloc, base, scope, place, no, test, yes, line, nodes)
        }
        StatementForm::Case { kind, on, arms } => {
            select(alloc, base, scope, place, *kind, arms, on, line, nodes)
        }
        StatementForm::For(header) => { for_loop(alloc, base, scope, place, header, line, nodes) }
        StatementForm::Set {
            target,
            blocking,
            value,
        } => assignment(
            alloc, base, scope, place, target, *blocking, value, line, nodes,
        ),
        StatementForm::Task | StatementForm::Empty => forms::empty(alloc, place),
    }
}

/// The flat statements of all parts of a block.
#[cycle(statement)]
fn statements(
    alloc: Global,
    base: u32,
    scope: &mut Scope,
    parts: &[Statement],
    line: &mut u32,
    nodes: &mut u32,
) -> Result<Vec<Stmt>, NoMemory>
    requires base { base ≤ 65536 }
    requires clear { IsClear (binding_of scope.old) }
    requires sound { AreSoundStatements (binding_of scope.old) (statements_of (statements_view parts.now)) }
    requires few_lines { line.old + count.all_lines (statements_of (statements_view parts.now)) < 2 ^ 32 }
    requires few_nodes { nodes.old + count.all_statement_nodes (binding_of scope.old) (statements_of (statements_view parts.now)) < 2 ^ 32 }
    ensures built { IfOk result (λ xs. stmts_of (map stmt_view xs.items) ≡ spec.statements base (binding_of scope.old) (statements_of (statements_view parts.now)) line.old nodes.old) }
    ensures lines { OnOk result (line.new ≡ line.old + count.all_lines (statements_of (statements_view parts.now))) }
    ensures counted { OnOk result (nodes.new ≡ nodes.old + count.all_statement_nodes (binding_of scope.old) (statements_of (statements_view parts.now))) }
    ensures kept { OnOk result (binding_of scope.new ≡ binding_of scope.old) }
{
    let mut all = Vec::new(alloc);
    for part in parts {
        all.push(statement(alloc, base, scope, part, line, nodes)?)?;
    }
    Ok(all)
}

/// The flat statement of `if (test) yes`, with `else no` where there is one.
#[cycle(statement)]
fn branch(
    alloc: Global,
    base: u32,
    scope: &mut Scope,
    place: Place,
    no: &Option<Statement>,
    test: &Expr,
    yes: &Statement,
    line: &mut u32,
    nodes: &mut u32,
) -> Result<Stmt, NoMemory>
    requires base { base ≤ 65536 }
    requires clear { IsClear (binding_of scope.old) }
    requires sound { IsSoundStatement (binding_of scope.old) (t.if_statement place (expr_view test.now) (statement_view yes.now) (else_view no.now)) }
    requires few_lines { line.old + count.lines (t.if_statement place (expr_view test.now) (statement_view yes.now) (else_view no.now)) < 2 ^ 32 }
    requires few_nodes { nodes.old + count.statement_nodes (binding_of scope.old) (t.if_statement place (expr_view test.now) (statement_view yes.now) (else_view no.now)) < 2 ^ 32 }
    ensures built { IfOk result (λ x. stmt_view x ≡ spec.statement base (binding_of scope.old) (t.if_statement place (expr_view test.now) (statement_view yes.now) (else_view no.now)) line.old nodes.old) }
    ensures lines { OnOk result (line.new ≡ line.old + count.lines (t.if_statement place (expr_view test.now) (statement_view yes.now) (else_view no.now))) }
    ensures counted { OnOk result (nodes.new ≡ nodes.old + count.statement_nodes (binding_of scope.old) (t.if_statement place (expr_view test.now) (statement_view yes.now) (else_view no.now))) }
    ensures kept { OnOk result (binding_of scope.new ≡ binding_of scope.old) }
{
    let number = take(line);
    let test = condition_term(alloc, base, scope, test, nodes)?;
    let yes = statement(alloc, base, scope, yes, line, nodes)?;
    let no = otherwise(alloc, base, scope, no, line, nodes)?;
    forms::branch(alloc, place, number, test, yes, no)
}

/// The flat statement of an else statement, if there is one.
#[cycle(statement)]
fn otherwise(
    alloc: Global,
    base: u32,
    scope: &mut Scope,
    no: &Option<Statement>,
    line: &mut u32,
    nodes: &mut u32,
) -> Result<Option<Stmt>, NoMemory>
    requires base { base ≤ 65536 }
    requires clear { IsClear (binding_of scope.old) }
    requires sound { AreSoundStatements (binding_of scope.old) (else_view no.now) }
    requires few_lines { line.old + count.all_lines (else_view no.now) < 2 ^ 32 }
    requires few_nodes { nodes.old + count.all_statement_nodes (binding_of scope.old) (else_view no.now) < 2 ^ 32 }
    ensures built { IfOk result (λ x. other_view x ≡ spec.statements base (binding_of scope.old) (else_view no.now) line.old nodes.old) }
    ensures lines { OnOk result (line.new ≡ line.old + count.all_lines (else_view no.now)) }
    ensures counted { OnOk result (nodes.new ≡ nodes.old + count.all_statement_nodes (binding_of scope.old) (else_view no.now)) }
    ensures kept { OnOk result (binding_of scope.new ≡ binding_of scope.old) }
{
    match no {
        Some(no) => Ok(Some(statement(alloc, base, scope, no, line, nodes)?)),
        None => Ok(None),
    }
}

/// The flat statement of a case, whose labels are compared in the shape of the case (IEEE 1364-2001, 9.5).
#[cycle(statement)]
fn select(
    alloc: Global,
    base: u32,
    scope: &mut Scope,
    place: Place,
    kind: CaseKind,
    arms: &[Arm],
    on: &Expr,
    line: &mut u32,
    nodes: &mut u32,
) -> Result<Stmt, NoMemory>
    requires base { base ≤ 65536 }
    requires clear { IsClear (binding_of scope.old) }
    requires sound { IsSoundStatement (binding_of scope.old) (t.case_statement place kind (expr_view on.now) (arms_of (arms_view arms.now))) }
    requires few_lines { line.old + count.lines (t.case_statement place kind (expr_view on.now) (arms_of (arms_view arms.now))) < 2 ^ 32 }
    requires few_nodes { nodes.old + count.statement_nodes (binding_of scope.old) (t.case_statement place kind (expr_view on.now) (arms_of (arms_view arms.now))) < 2 ^ 32 }
    ensures built { IfOk result (λ x. stmt_view x ≡ spec.statement base (binding_of scope.old) (t.case_statement place kind (expr_view on.now) (arms_of (arms_view arms.now))) line.old nodes.old) }
    ensures lines { OnOk result (line.new ≡ line.old + count.lines (t.case_statement place kind (expr_view on.now) (arms_of (arms_view arms.now)))) }
    ensures counted { OnOk result (nodes.new ≡ nodes.old + count.statement_nodes (binding_of scope.old) (t.case_statement place kind (expr_view on.now) (arms_of (arms_view arms.now)))) }
    ensures kept { OnOk result (binding_of scope.new ≡ binding_of scope.old) }
{
    let shape = case_shape(scope, on, arms);
    let number = take(line);
    let on = term(alloc, base, scope, on, nodes, shape)?;
    let arms = case_arms(alloc, base, scope, shape, arms, line, nodes)?;
    forms::select(alloc, place, number, kind, on, arms)
}

/// The flat arms of a case of this shape.
#[cycle(statement)]
fn case_arms(
    alloc: Global,
    base: u32,
    scope: &mut Scope,
    shape: Shape,
    arms: &[Arm],
    line: &mut u32,
    nodes: &mut u32,
) -> Result<Vec<CaseArm>, NoMemory>
    requires base { base ≤ 65536 }
    requires clear { IsClear (binding_of scope.old) }
    requires sound { AreSoundItems (binding_of scope.old) (arms_of (arms_view arms.now)) }
    requires few_lines { line.old + count.item_lines (arms_of (arms_view arms.now)) < 2 ^ 32 }
    requires few_nodes { nodes.old + count.item_nodes (binding_of scope.old) (arms_of (arms_view arms.now)) < 2 ^ 32 }
    ensures built { IfOk result (λ xs. flat_arms_of (map arm_view xs.items) ≡ spec.arms base (binding_of scope.old) shape (arms_of (arms_view arms.now)) line.old nodes.old) }
    ensures lines { OnOk result (line.new ≡ line.old + count.item_lines (arms_of (arms_view arms.now))) }
    ensures counted { OnOk result (nodes.new ≡ nodes.old + count.item_nodes (binding_of scope.old) (arms_of (arms_view arms.now))) }
    ensures kept { OnOk result (binding_of scope.new ≡ binding_of scope.old) }
{
    let mut all = Vec::new(alloc);
    for arm in arms {
        let labels = label_terms(alloc, base, scope, shape, &arm.labels, nodes)?;
        let body = statement(alloc, base, scope, &arm.body, line, nodes)?;
        all.push(forms::arm(labels, body))?;
    }
    Ok(all)
}

/// The flat statement of a loop: its body once for each turn, each time with the same numbers (IEEE 1364-2001, 9.6).
#[cycle(statement)]
fn for_loop(
    alloc: Global,
    base: u32,
    scope: &mut Scope,
    place: Place,
    header: &For,
    line: &mut u32,
    nodes: &mut u32,
) -> Result<Stmt, NoMemory>
    requires base { base ≤ 65536 }
    requires clear { IsClear (binding_of scope.old) }
    requires sound { IsSoundStatement (binding_of scope.old) (t.for_loop place (loop_view header.now).0 (loop_view header.now).1) }
    requires few_lines { line.old + count.lines (t.for_loop place (loop_view header.now).0 (loop_view header.now).1) < 2 ^ 32 }
    requires few_nodes { nodes.old + count.statement_nodes (binding_of scope.old) (t.for_loop place (loop_view header.now).0 (loop_view header.now).1) < 2 ^ 32 }
    ensures built { IfOk result (λ x. stmt_view x ≡ spec.statement base (binding_of scope.old) (t.for_loop place (loop_view header.now).0 (loop_view header.now).1) line.old nodes.old) }
    ensures lines { OnOk result (line.new ≡ line.old + count.lines (t.for_loop place (loop_view header.now).0 (loop_view header.now).1)) }
    ensures counted { OnOk result (nodes.new ≡ nodes.old + count.statement_nodes (binding_of scope.old) (t.for_loop place (loop_view header.now).0 (loop_view header.now).1)) }
    ensures kept { OnOk result (binding_of scope.new ≡ binding_of scope.old) }
{
    let number = take(line);
    let values = turns_of(alloc, scope, header)?;
    let variable = variable_name(alloc, header)?;
    let before = scope.get(variable.as_slice()).copied();
    let values = values.as_slice();
    let turns = turn_statements(
        alloc,
        base,
        scope,
        &variable,
        values,
        &header.body,
        *line,
        *nodes,
    )?;
    put_back(scope, &variable, before)?;
    pass_lines(&header.body, line);
    pass_statement_nodes(scope, &header.body, nodes);
    Ok(forms::unrolled(alloc, place, number, turns)?)
}

/// A statement for each value of a loop's variable, each with the numbers from `line` and from `nodes` on. The variable
/// has the last value then.
#[cycle(statement)]
fn turn_statements(
    alloc: Global,
    base: u32,
    scope: &mut Scope,
    variable: &Name,
    values: &[Four],
    body: &Statement,
    line: u32,
    nodes: u32,
) -> Result<Vec<Stmt>, NoMemory>
    requires base { base ≤ 65536 }
    requires clear { IsClear (binding_of scope.old) }
    requires sound { InTurns values.now (λ v. IsSoundStatement (with_turn variable.now v (binding_of scope.old)) (statement_view body.now)) }
    requires few_lines { line + count.lines (statement_view body.now) < 2 ^ 32 }
    requires few_nodes { nodes + count.statement_nodes (binding_of scope.old) (statement_view body.now) < 2 ^ 32 }
    ensures built { IfOk result (λ xs. stmts_of (map stmt_view xs.items) ≡ spec.turn_stmts values.now (λ v. spec.statement base (with_turn variable.now v (binding_of scope.old)) (statement_view body.now) line nodes)) }
    ensures kept { OnOk result ((x : List ℕ) → bytes_eq x variable.now ≡ false → binding_of scope.new x ≡ binding_of scope.old x) }
{
    let mut all = Vec::new(alloc);
    for value in values {
        scope.insert(variable, Entry::Turn(*value))?;
        let mut line = line;
        let mut nodes = nodes;
        all.push(statement(alloc, base, scope, body, &mut line, &mut nodes)?)?;
    }
    Ok(all)
}

/// The flat statement of an assignment.
fn assignment(
    alloc: Global,
    base: u32,
    scope: &Scope,
    place: Place,
    to: &Expr,
    blocking: bool,
    value: &Expr,
    line: &mut u32,
    nodes: &mut u32,
) -> Result<Stmt, NoMemory>
    requires base { base ≤ 65536 }
    requires clear { IsClear (binding_of scope.now) }
    requires sound { IsSoundStatement (binding_of scope.now) (t.assignment place (expr_view to.now) blocking (expr_view value.now)) }
    requires few_lines { line.old + count.lines (t.assignment place (expr_view to.now) blocking (expr_view value.now)) < 2 ^ 32 }
    requires few_nodes { nodes.old + count.statement_nodes (binding_of scope.now) (t.assignment place (expr_view to.now) blocking (expr_view value.now)) < 2 ^ 32 }
    ensures built { IfOk result (λ x. stmt_view x ≡ spec.statement base (binding_of scope.now) (t.assignment place (expr_view to.now) blocking (expr_view value.now)) line.old nodes.old) }
    ensures lines { OnOk result (line.new ≡ line.old + count.lines (t.assignment place (expr_view to.now) blocking (expr_view value.now))) }
    ensures counted { OnOk result (nodes.new ≡ nodes.old + count.statement_nodes (binding_of scope.now) (t.assignment place (expr_view to.now) blocking (expr_view value.now))) }
{
    let number = take(line);
    let width = target_width(scope, to);
    let to = target(alloc, base, scope, to, nodes)?;
    let value = right_side(alloc, base, scope, width, value, nodes)?;
    forms::set(alloc, place, number, blocking, to, value)
}

/// How wide the target of an assignment is.
pub(crate) fn target_width(scope: &Scope, to: &Expr) -> u8
    requires clear { IsClear (binding_of scope.now) }
    requires sound { IsSoundTarget (binding_of scope.now) (expr_view to.now) }
    ensures { result ≡ (of.shape (binding_of scope.now) (expr_view to.now)).width }
{
    shape_of(scope, to).width
}

/// The labels of an arm, in the shape of its case.
fn label_terms(
    alloc: Global,
    base: u32,
    scope: &Scope,
    shape: Shape,
    labels: &[Expr],
    nodes: &mut u32,
) -> Result<Vec<Term>, NoMemory>
    requires base { base ≤ 65536 }
    requires sound { AreSound (binding_of scope.now) (exprs_of (exprs_view labels.now)) }
    requires few { nodes.old + count.all_nodes (binding_of scope.now) (exprs_of (exprs_view labels.now)) < 2 ^ 32 }
    ensures built { IfOk result (λ xs. terms_of (map term_view xs.items) ≡ spec.label_terms base (binding_of scope.now) shape (exprs_of (exprs_view labels.now)) nodes.old) }
    ensures counted { OnOk result (nodes.new ≡ nodes.old + count.all_nodes (binding_of scope.now) (exprs_of (exprs_view labels.now))) }
{
    let mut all = Vec::new(alloc);
    for label in labels {
        all.push(term(alloc, base, scope, label, nodes, shape)?)?;
    }
    Ok(all)
}

/// The width and sign by which the selector and the labels of a case are compared.
fn case_shape(scope: &Scope, on: &Expr, arms: &[Arm]) -> Shape
    requires on { IsSound (binding_of scope.now) (expr_view on.now) }
    requires arms { AreSoundItems (binding_of scope.now) (arms_of (arms_view arms.now)) }
    ensures { result ≡ spec.case_shape (binding_of scope.now) (expr_view on.now) (arms_of (arms_view arms.now)) }
{
    match elab_const::case_shape(on, arms, scope.values()) {
        Ok(shape) => shape,
        Err(_) => unreachable!(),
    }
}

/// The values of a loop's variable, one for each turn.
fn turns_of(alloc: Global, scope: &Scope, header: &For) -> Result<Turns, NoMemory>
    requires clear { IsClear (binding_of scope.now) }
    requires sound { none (loops.turn_faults (binding_of scope.now) (loop_view header.now).0) ≡ true }
    ensures { IfOk result (λ values. values ≡ loops.turns (binding_of scope.now) (loop_view header.now).0) }
{
    match elab_const::turns(alloc, header, scope.values()) {
        Ok(values) => Ok(values),
        Err(ConstFault::NoMemory) => Err(NoMemory),
        Err(ConstFault::At { .. }) => unreachable!(),
    }
}
