#![tactic(auto, using(crate::proofs::Counted::counted))]
//! How many updates the bodies of a design can queue between two flushes. Each assignment is made at most once in a run,
//! and a block with nonblocking assignments runs at most once between two flushes.

ghost use Rattle.std.specs.Prelude.{◌≡◌, ◌+◌, ◌∷◌, [], map};
ghost use Rattle.design_model.specs.View.{arms_of, process_view, stmt_view, stmts_of, target_view, targets_of};
ghost use Rattle.value_store.specs.Rooms.{all_parts, all_queued, arm_view, arms_queued, as_usize, processes_queued, queued_parts, target_parts};

use design_model::{CaseArm, Process, Stmt, StmtForm, Target};
/// How many updates the bodies of these processes can queue between two flushes; where that is no `usize`, the greatest
/// one.
pub fn queue_room(processes: &[Process]) -> usize
    ensures { result ≡ as_usize (processes_queued (map process_view processes.now)) }
{
    let mut count = 0;
    for process in processes {
        count = with_process(process, count);
    }
    count
}

/// The number so far, and those of a process.
fn with_process(process: &Process, count: usize) -> usize
    ensures { result ≡ as_usize (count + processes_queued (process_view process.now ∷ [])) }
{
    match process {
        Process::Assign { .. } => count,
        Process::Comb { body, .. } | Process::Clocked { body, .. } => with_stmt(body, count),
    }
}

/// The number so far, and those of a statement.
#[cycle(statements)]
fn with_stmt(stmt: &Stmt, count: usize) -> usize
    ensures { result ≡ as_usize (count + queued_parts (stmt_view stmt.now)) }
{
    match &*stmt.form {
        StmtForm::Block(parts) => with_stmts(parts, count),
        StmtForm::If { yes, no, .. } => {
            let count = with_stmt(yes, count);
            match no {
                Some(no) => with_stmt(no, count),
                None => count,
            }
        }
        StmtForm::Case { arms, .. } => with_arms(arms, count),
        StmtForm::Turns { turns, .. } => with_stmts(turns, count),
        StmtForm::Set {
            blocking: false,
            target,
            ..
        } => with_target(target, count),
        StmtForm::Set { blocking: true, .. } | StmtForm::Empty => count,
    }
}

/// The number so far, and those of statements.
#[cycle(statements)]
fn with_stmts(stmts: &[Stmt], count: usize) -> usize
    ensures { result ≡ as_usize (count + all_queued (stmts_of (map stmt_view stmts.now))) }
{
    let mut total = count;
    for stmt in stmts {
        total = with_stmt(stmt, total);
    }
    total
}

/// The number so far, and those of the arms of a case.
#[cycle(statements)]
fn with_arms(arms: &[CaseArm], count: usize) -> usize
    ensures { result ≡ as_usize (count + arms_queued (arms_of (map arm_view arms.now))) }
{
    let mut total = count;
    for arm in arms {
        total = with_stmt(&arm.body, total);
    }
    total
}

/// The number so far, and the parts of a target.
#[cycle(targets)]
fn with_target(target: &Target, count: usize) -> usize
    ensures { result ≡ as_usize (count + target_parts (target_view target.now)) }
{
    match target {
        Target::Several(targets) => with_targets(targets, count),
        Target::Whole(_) | Target::Part { .. } | Target::Word { .. } => count.saturating_add(1),
    }
}

/// The number so far, and the parts of targets.
#[cycle(targets)]
fn with_targets(targets: &[Target], count: usize) -> usize
    ensures { result ≡ as_usize (count + all_parts (targets_of (map target_view targets.now))) }
{
    let mut total = count;
    for target in targets {
        total = with_target(target, total);
    }
    total
}
