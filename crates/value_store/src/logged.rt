#![tactic(auto, using(crate::proofs::Counted::counted))]
//! How much of the log of undecided tests a run of a body takes. In a run each branch and each arm runs at most once.

ghost use Rattle.std.specs.Prelude.{◌≡◌, ◌+◌, false, true, map};
ghost use Rattle.design_model.specs.Design.{body};
ghost use Rattle.design_model.specs.View.{arms_of, design_view, process_view, stmt_view, stmts_of, target_view, targets_of};
ghost use Rattle.value_store.specs.Rooms.{all_logged, all_take, arm_view, arms_logged, as_usize, log_takes, logged, most_logged, target_takes};

use design_model::{CaseArm, Design, Process, Stmt, StmtForm, Target};
/// How many places of the log of undecided tests a run of any of the bodies of a design takes at most: one for each test, and
/// inside of a test one for each written signal, and for each written word one more than its memory has words. Where that is
/// no `usize`, the greatest one.
pub fn log_room(design: &Design) -> usize
    ensures { result ≡ as_usize (most_logged (log_takes (design_view design.now)) (map process_view design.now.processes)) }
{
    let mut most = 0;
    for process in design.processes.as_slice() {
        most = most.max(with_process(design, process));
    }
    most
}

/// The places that a run of the body of a process takes.
fn with_process(design: &Design, process: &Process) -> usize
    ensures { result ≡ as_usize (logged (log_takes (design_view design.now)) false (body (process_view process.now))) }
{
    match process {
        Process::Assign { .. } => 0,
        Process::Comb { body, .. } | Process::Clocked { body, .. } => {
            with_stmt(design, body, false, 0)
        }
    }
}

/// The places that a write of a signal or memory takes inside of a test.
fn places(design: &Design, thing: u32) -> usize
    ensures { result ≡ log_takes (design_view design.now) thing }
{
    let first = design.signals.len();
    let place = thing as usize;
    if place < first {
        return 1;
    }
    if place - first >= design.memories.len() {
        return 2;
    }
    let memory = &design.memories.as_slice()[place - first];
    let words = memory.first.max(memory.last) - memory.first.min(memory.last);
    words as usize + 2
}

/// The number so far, and the places that a target takes.
#[cycle(targets)]
fn with_target(design: &Design, target: &Target, count: usize) -> usize
    ensures { result ≡ as_usize (count + target_takes (log_takes (design_view design.now)) (target_view target.now)) }
{
    match target {
        Target::Several(targets) => with_targets(design, targets, count),
        Target::Whole(thing)
        | Target::Part { signal: thing, .. }
        | Target::Word { memory: thing, .. } => count.saturating_add(places(design, *thing)),
    }
}

/// The number so far, and the places that targets take.
#[cycle(targets)]
fn with_targets(design: &Design, targets: &[Target], count: usize) -> usize
    ensures { result ≡ as_usize (count + all_take (log_takes (design_view design.now)) (targets_of (map target_view targets.now))) }
{
    let mut total = count;
    for target in targets {
        total = with_target(design, target, total);
    }
    total
}

/// The number so far, and the places that a statement takes.
#[cycle(logged)]
fn with_stmt(design: &Design, stmt: &Stmt, inside: bool, count: usize) -> usize
    ensures { result ≡ as_usize (count + logged (log_takes (design_view design.now)) inside (stmt_view stmt.now)) }
{
    match &*stmt.form {
        StmtForm::Block(parts) => with_stmts(design, parts, inside, count),
        StmtForm::If { yes, no, .. } => {
            let count = with_stmt(design, yes, true, count.saturating_add(1));
            match no {
                Some(no) => with_stmt(design, no, true, count),
                None => count,
            }
        }
        StmtForm::Case { arms, .. } => with_arms(design, arms, count),
        StmtForm::Turns { turns, .. } => with_stmts(design, turns, inside, count),
        StmtForm::Set {
            blocking: true,
            target,
            ..
        } => {
            if inside {
                with_target(design, target, count)
            } else {
                count
            }
        }
        StmtForm::Set {
            blocking: false,
            ..
        }
        | StmtForm::Empty => count,
    }
}

/// The number so far, and the places that statements take.
#[cycle(logged)]
fn with_stmts(design: &Design, stmts: &[Stmt], inside: bool, count: usize) -> usize
    ensures { result ≡ as_usize (count + all_logged (log_takes (design_view design.now)) inside (stmts_of (map stmt_view stmts.now))) }
{
    let mut total = count;
    for stmt in stmts {
        total = with_stmt(design, stmt, inside, total);
    }
    total
}

/// The number so far, and the places that the arms of a case take.
#[cycle(logged)]
fn with_arms(design: &Design, arms: &[CaseArm], count: usize) -> usize
    ensures { result ≡ as_usize (count + arms_logged (log_takes (design_view design.now)) (arms_of (map arm_view arms.now))) }
{
    let mut total = count;
    for arm in arms {
        total = with_stmt(design, &arm.body, true, total.saturating_add(1));
    }
    total
}
