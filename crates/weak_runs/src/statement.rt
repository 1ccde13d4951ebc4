//! The assignments of statements, in the order of the text.

ghost use Rattle.std.specs.Prelude.{Bool, [], ◌+◌, ◌++◌, ◌≡◌, ◌≤◌, map, true, ℕ};
ghost use Rattle.design_model.specs.Design.{body};
ghost use Rattle.design_model.specs.Shape.{are_bodies, is_arms, is_body};
ghost use Rattle.design_model.specs.View.{arms_of, process_view, stmt_view, stmts_of};
ghost use Rattle.value_store.specs.body_replay.Contract.{weak_queue, weak_queue_in, weak_queue_of, weak_writes, weak_writes_in, weak_writes_of};
ghost use Rattle.value_store.specs.Rooms.{arm_view};
ghost use Rattle.open_tests.specs.assignments.Widths.{HasWidths};
ghost use Rattle.open_tests.specs.Views.{else_view};
ghost use Rattle.open_tests.specs.Weights.{all_queues, arms_queues, queues};
ghost use Rattle.weak_runs.specs.Makes.{IsOutside, Makes, at};

use crate::assignment::assign;
use body_calls::Blocks;
use design_model::{CaseArm, Process, Stmt, StmtForm};
use open_tests::Piece;
use value_store::Queue;

/// Makes all assignments of the body of a process, each of which may not be made, whatever the body reads: the blocking ones
/// to what is kept, and the nonblocking ones are queued. Nothing is noted. No part of an assignment is left in `pieces`,
/// which is scratch room. It takes no memory.
pub fn write_body<S: Blocks>(store: &mut S, process: &Process, pieces: &mut Queue<Piece>)
    requires lawful { is_body (S.scene store.old).design (body (process_view process.now)) ≡ true }
    requires widths { HasWidths (S.scene store.old).design }
    requires outside { IsOutside (at (S.under store.old) (S.scene store.old) (S.queued store.old) (S.around store.old) (S.rooms store.old)) }
    requires room { queues (body (process_view process.now)) ≤ (S.rooms store.old).queue }
    requires none { pieces.old.items ≡ [] }
    requires scratch { 128 ≤ pieces.old.room }
    ensures makes { Makes (weak_writes (S.scene store.old).design (body (process_view process.now))) (weak_queue (S.scene store.old).design (body (process_view process.now))) (queues (body (process_view process.now))) (at (S.under store.old) (S.scene store.old) (S.queued store.old) (S.around store.old) (S.rooms store.old)) (at (S.under store.new) (S.scene store.new) (S.queued store.new) (S.around store.new) (S.rooms store.new)) }
    ensures pieces { pieces.new ≡ pieces.old }
{
    match process {
        Process::Assign { target, value, .. } => assign(store, true, target, value, pieces),
        Process::Comb { body, .. } | Process::Clocked { body, .. } => {
            write_stmt(store, body, pieces);
        }
    }
}

/// The assignments of a statement.
#[cycle(statements)]
fn write_stmt<S: Blocks>(store: &mut S, stmt: &Stmt, pieces: &mut Queue<Piece>)
    requires lawful { is_body (S.scene store.old).design (stmt_view stmt.now) ≡ true }
    requires widths { HasWidths (S.scene store.old).design }
    requires outside { IsOutside (at (S.under store.old) (S.scene store.old) (S.queued store.old) (S.around store.old) (S.rooms store.old)) }
    requires room { queues (stmt_view stmt.now) ≤ (S.rooms store.old).queue }
    requires none { pieces.old.items ≡ [] }
    requires scratch { 128 ≤ pieces.old.room }
    ensures makes { Makes (weak_writes (S.scene store.old).design (stmt_view stmt.now)) (weak_queue (S.scene store.old).design (stmt_view stmt.now)) (queues (stmt_view stmt.now)) (at (S.under store.old) (S.scene store.old) (S.queued store.old) (S.around store.old) (S.rooms store.old)) (at (S.under store.new) (S.scene store.new) (S.queued store.new) (S.around store.new) (S.rooms store.new)) }
    ensures pieces { pieces.new ≡ pieces.old }
{
    match &*stmt.form {
        StmtForm::Block(parts) => write_all(store, parts, pieces),
        StmtForm::If { yes, no, .. } => write_if(store, no, yes, pieces),
        StmtForm::Case { arms, .. } => write_arms(store, arms, pieces),
        StmtForm::Turns { turns, .. } => write_all(store, turns, pieces),
        StmtForm::Set {
            blocking,
            target,
            value,
            ..
        } => assign(store, *blocking, target, value, pieces),
        StmtForm::Empty => {}
    }
}

/// The assignments of statements.
#[cycle(statements)]
fn write_all<S: Blocks>(store: &mut S, stmts: &[Stmt], pieces: &mut Queue<Piece>)
    requires lawful { are_bodies (S.scene store.old).design (stmts_of (map stmt_view stmts.now)) ≡ true }
    requires widths { HasWidths (S.scene store.old).design }
    requires outside { IsOutside (at (S.under store.old) (S.scene store.old) (S.queued store.old) (S.around store.old) (S.rooms store.old)) }
    requires room { all_queues (stmts_of (map stmt_view stmts.now)) ≤ (S.rooms store.old).queue }
    requires none { pieces.old.items ≡ [] }
    requires scratch { 128 ≤ pieces.old.room }
    ensures makes { Makes (weak_writes_of (S.scene store.old).design (stmts_of (map stmt_view stmts.now))) (weak_queue_of (S.scene store.old).design (stmts_of (map stmt_view stmts.now))) (all_queues (stmts_of (map stmt_view stmts.now))) (at (S.under store.old) (S.scene store.old) (S.queued store.old) (S.around store.old) (S.rooms store.old)) (at (S.under store.new) (S.scene store.new) (S.queued store.new) (S.around store.new) (S.rooms store.new)) }
    ensures pieces { pieces.new ≡ pieces.old }
{
    for stmt in stmts {
        write_stmt(store, stmt, pieces);
    }
}

/// The assignments of both branches of a condition.
#[cycle(statements)]
fn write_if<S: Blocks>(store: &mut S, no: &Option<Stmt>, yes: &Stmt, pieces: &mut Queue<Piece>)
    requires lawful { is_body (S.scene store.old).design (stmt_view yes.now) ≡ true }
    requires other { are_bodies (S.scene store.old).design (else_view no.now) ≡ true }
    requires widths { HasWidths (S.scene store.old).design }
    requires outside { IsOutside (at (S.under store.old) (S.scene store.old) (S.queued store.old) (S.around store.old) (S.rooms store.old)) }
    requires room { 0 + queues (stmt_view yes.now) + all_queues (else_view no.now) ≤ (S.rooms store.old).queue }
    requires none { pieces.old.items ≡ [] }
    requires scratch { 128 ≤ pieces.old.room }
    ensures makes { Makes (weak_writes (S.scene store.old).design (stmt_view yes.now) ++ weak_writes_of (S.scene store.old).design (else_view no.now)) (weak_queue (S.scene store.old).design (stmt_view yes.now) ++ weak_queue_of (S.scene store.old).design (else_view no.now)) (0 + queues (stmt_view yes.now) + all_queues (else_view no.now)) (at (S.under store.old) (S.scene store.old) (S.queued store.old) (S.around store.old) (S.rooms store.old)) (at (S.under store.new) (S.scene store.new) (S.queued store.new) (S.around store.new) (S.rooms store.new)) }
    ensures pieces { pieces.new ≡ pieces.old }
{
    write_stmt(store, yes, pieces);
    write_else(store, no, pieces);
}

/// The assignments of an else branch, if there is one.
#[cycle(statements)]
fn write_else<S: Blocks>(store: &mut S, branch: &Option<Stmt>, pieces: &mut Queue<Piece>)
    requires lawful { are_bodies (S.scene store.old).design (else_view branch.now) ≡ true }
    requires widths { HasWidths (S.scene store.old).design }
    requires outside { IsOutside (at (S.under store.old) (S.scene store.old) (S.queued store.old) (S.around store.old) (S.rooms store.old)) }
    requires room { all_queues (else_view branch.now) ≤ (S.rooms store.old).queue }
    requires none { pieces.old.items ≡ [] }
    requires scratch { 128 ≤ pieces.old.room }
    ensures makes { Makes (weak_writes_of (S.scene store.old).design (else_view branch.now)) (weak_queue_of (S.scene store.old).design (else_view branch.now)) (all_queues (else_view branch.now)) (at (S.under store.old) (S.scene store.old) (S.queued store.old) (S.around store.old) (S.rooms store.old)) (at (S.under store.new) (S.scene store.new) (S.queued store.new) (S.around store.new) (S.rooms store.new)) }
    ensures pieces { pieces.new ≡ pieces.old }
{
    if let Some(stmt) = branch {
        write_stmt(store, stmt, pieces);
    }
}

/// The assignments of the arms of a case.
#[cycle(statements)]
fn write_arms<S: Blocks>(store: &mut S, arms: &[CaseArm], pieces: &mut Queue<Piece>)
    requires lawful { (w : ℕ) × (signed : Bool) × (is_arms (S.scene store.old).design w signed (arms_of (map arm_view arms.now)) ≡ true) }
    requires widths { HasWidths (S.scene store.old).design }
    requires outside { IsOutside (at (S.under store.old) (S.scene store.old) (S.queued store.old) (S.around store.old) (S.rooms store.old)) }
    requires room { arms_queues (arms_of (map arm_view arms.now)) ≤ (S.rooms store.old).queue }
    requires none { pieces.old.items ≡ [] }
    requires scratch { 128 ≤ pieces.old.room }
    ensures makes { Makes (weak_writes_in (S.scene store.old).design (arms_of (map arm_view arms.now))) (weak_queue_in (S.scene store.old).design (arms_of (map arm_view arms.now))) (arms_queues (arms_of (map arm_view arms.now))) (at (S.under store.old) (S.scene store.old) (S.queued store.old) (S.around store.old) (S.rooms store.old)) (at (S.under store.new) (S.scene store.new) (S.queued store.new) (S.around store.new) (S.rooms store.new)) }
    ensures pieces { pieces.new ≡ pieces.old }
{
    for arm in arms {
        write_stmt(store, &arm.body, pieces);
    }
}
