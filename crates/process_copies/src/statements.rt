//! Copies of statements.

ghost use Rattle.std.specs.Prelude.{◌≡◌, IfOk, map};
ghost use Rattle.design_model.specs.Tree as t;
ghost use Rattle.design_model.specs.View.{arms_of, stmt_view, target_view, term_view};
ghost use Rattle.process_copies.specs.Views.{arm_view, other_view};

use crate::targets::copy_target;
use crate::terms::{copy_term, copy_terms};
use cov_host::{NoMemory, Place};
use design_model::{CaseArm, Stmt, StmtForm, Target, Term};
use four_state::CaseKind;
use std::alloc::Global;

/// A copy of the statement.
#[cycle(statements)]
pub(crate) fn copy_stmt(alloc: Global, stmt: &Stmt) -> Result<Stmt, NoMemory>
    ensures { IfOk result (λ copy. stmt_view copy ≡ stmt_view stmt.now) }
{
    let room = room_at(alloc, stmt.place)?;
    match &*stmt.form {
        StmtForm::Block(parts) => Ok(filled(room, StmtForm::Block(copy_stmts(alloc, parts)?))),
        StmtForm::If {
            line,
            test,
            yes,
            no,
        } => copy_branch(alloc, no, room, *line, test, yes),
        StmtForm::Case {
            line,
            kind,
            on,
            arms,
        } => copy_select(alloc, arms, room, *line, *kind, on),
        StmtForm::Turns { line, turns } => {
            let line = *line;
            let turns = copy_stmts(alloc, turns)?;
            Ok(filled(room, StmtForm::Turns { line, turns }))
        }
        StmtForm::Set {
            line,
            blocking,
            target,
            value,
        } => copy_set(alloc, room, *line, *blocking, target, value),
        StmtForm::Empty => Ok(room),
    }
}

/// Copies of the statements.
#[cycle(statements)]
fn copy_stmts(alloc: Global, stmts: &[Stmt]) -> Result<Vec<Stmt>, NoMemory>
    ensures { IfOk result (λ copy. map stmt_view copy.items ≡ map stmt_view stmts.now) }
{
    let mut copies = Vec::with_capacity(alloc, stmts.len())?;
    for stmt in stmts {
        copies.push(copy_stmt(alloc, stmt)?)?;
    }
    Ok(copies)
}

/// A copy of an `if`, with `else no` where there is one.
#[cycle(statements)]
fn copy_branch(
    alloc: Global,
    no: &Option<Stmt>,
    room: Stmt,
    line: u32,
    test: &Term,
    yes: &Stmt,
) -> Result<Stmt, NoMemory>
    ensures { IfOk result (λ copy. stmt_view copy ≡ t.branch room.place line (term_view test.now) (stmt_view yes.now) (other_view no.now)) }
{
    let test = copy_term(alloc, test)?;
    let yes = copy_stmt(alloc, yes)?;
    let no = copy_other(alloc, no)?;
    let form = StmtForm::If {
        line,
        test,
        yes,
        no,
    };
    Ok(filled(room, form))
}

/// A copy of the `else` branch, where there is one.
#[cycle(statements)]
fn copy_other(alloc: Global, other: &Option<Stmt>) -> Result<Option<Stmt>, NoMemory>
    ensures { IfOk result (λ copy. other_view copy ≡ other_view other.now) }
{
    match other {
        Some(stmt) => Ok(Some(copy_stmt(alloc, stmt)?)),
        None => Ok(None),
    }
}

/// A copy of a `case`, `casez` or `casex`.
#[cycle(statements)]
fn copy_select(
    alloc: Global,
    arms: &[CaseArm],
    room: Stmt,
    line: u32,
    kind: CaseKind,
    on: &Term,
) -> Result<Stmt, NoMemory>
    ensures { IfOk result (λ copy. stmt_view copy ≡ t.select room.place line kind (term_view on.now) (arms_of (map arm_view arms.now))) }
{
    let on = copy_term(alloc, on)?;
    let arms = copy_arms(alloc, arms)?;
    let form = StmtForm::Case {
        line,
        kind,
        on,
        arms,
    };
    Ok(filled(room, form))
}

/// Copies of the arms of a case.
#[cycle(statements)]
fn copy_arms(alloc: Global, arms: &[CaseArm]) -> Result<Vec<CaseArm>, NoMemory>
    ensures { IfOk result (λ copy. map arm_view copy.items ≡ map arm_view arms.now) }
{
    let mut copies = Vec::with_capacity(alloc, arms.len())?;
    for arm in arms {
        copies.push(copy_arm(alloc, arm)?)?;
    }
    Ok(copies)
}

/// A copy of an arm of a case.
#[cycle(statements)]
fn copy_arm(alloc: Global, arm: &CaseArm) -> Result<CaseArm, NoMemory>
    ensures { IfOk result (λ copy. arm_view copy ≡ arm_view arm.now) }
{
    Ok(CaseArm {
        labels: copy_terms(alloc, &arm.labels)?,
        body: copy_stmt(alloc, &arm.body)?,
    })
}

/// A copy of an assignment.
fn copy_set(
    alloc: Global,
    room: Stmt,
    line: u32,
    blocking: bool,
    target: &Target,
    value: &Term,
) -> Result<Stmt, NoMemory>
    ensures { IfOk result (λ copy. stmt_view copy ≡ t.set room.place line blocking (target_view target.now) (term_view value.now)) }
{
    let target = copy_target(alloc, target)?;
    let form = StmtForm::Set {
        line,
        blocking,
        target,
        value: copy_term(alloc, value)?,
    };
    Ok(filled(room, form))
}

/// An empty statement at a place, whose box is there and is still to be filled. It is allocated before the boxes of the
/// parts, so that a statement lies before its parts.
fn room_at(alloc: Global, place: Place) -> Result<Stmt, NoMemory>
    ensures place { IfOk result (λ room. room.place ≡ place) }
    ensures form { IfOk result (λ room. room.form.value ≡ StmtForm.Empty) }
{
    Ok(Stmt {
        place,
        form: Box::new(alloc, StmtForm::Empty)?,
    })
}

/// The statement with this form in its box.
fn filled(room: Stmt, form: StmtForm) -> Stmt
    ensures place { result.place ≡ room.place }
    ensures form { result.form.value ≡ form }
{
    let mut stmt = room;
    *stmt.form = form;
    stmt
}
