//! The targets of a process, in order of its text.

ghost use Rattle.std.specs.Prelude.{◌≡◌, ◌&&◌, ◌||◌, None, OnOk, Some, false, if◌then◌else◌, map, max};
ghost use Rattle.design_model.specs.Design.{body};
ghost use Rattle.design_model.specs.Execution.{is_default};
ghost use Rattle.design_model.specs.Once.{all_parts_on, parts_on};
ghost use Rattle.design_model.specs.View.{arms_of, else_of, process_view, stmt_view, stmts_of, target_view, targets_of};
ghost use Rattle.process_names.specs.Names.{arm_view};
ghost use Rattle.target_counts.specs.Counts.{Counts, Tries};
ghost use Rattle.target_counts.specs.Most.{most, most_all, most_of};

use crate::TargetCounts;
use cov_host::NoMemory;
use design_model::{CaseArm, Process, Stmt, StmtForm, Target};

/// Counts the targets on the paths through a process.
pub(crate) fn count_process(counts: &mut TargetCounts, process: &Process) -> Result<(), NoMemory>
    ensures { OnOk result (Counts (λ x. most x (body (process_view process.now))) counts.old counts.new) }
{
    match process {
        Process::Assign { target, .. } => count_target(counts, target),
        Process::Comb { body, .. } | Process::Clocked { body, .. } => count_stmt(counts, body),
    }
}

/// Counts those of a statement.
#[cycle(statements)]
fn count_stmt(counts: &mut TargetCounts, stmt: &Stmt) -> Result<(), NoMemory>
    ensures { OnOk result (Counts (λ x. most x (stmt_view stmt.now)) counts.old counts.new) }
{
    match &*stmt.form {
        StmtForm::Block(parts) => count_stmts(counts, parts),
        StmtForm::If { yes, no, .. } => match no {
            Some(no) => count_either(counts, yes, no),
            None => count_branch(counts, yes),
        },
        StmtForm::Case { arms, .. } => count_arms(counts, arms),
        StmtForm::Turns { turns, .. } => count_stmts(counts, turns),
        StmtForm::Set { target, .. } => count_target(counts, target),
        StmtForm::Empty => Ok(()),
    }
}

/// Counts those of statements that are one after the other.
#[cycle(statements)]
fn count_stmts(counts: &mut TargetCounts, stmts: &[Stmt]) -> Result<(), NoMemory>
    ensures { OnOk result (Counts (λ x. most_all x (stmts_of (map stmt_view stmts.now))) counts.old counts.new) }
{
    for stmt in stmts {
        count_stmt(counts, stmt)?;
    }
    Ok(())
}

/// Counts those of two branches.
#[cycle(statements)]
fn count_either(counts: &mut TargetCounts, yes: &Stmt, no: &Stmt) -> Result<(), NoMemory>
    ensures { OnOk result (Counts (λ x. max (most x (stmt_view yes.now)) (most_all x (else_of (Some (stmt_view no.now))))) counts.old counts.new) }
{
    let from = counts.named();
    try_branch(counts, yes)?;
    try_branch(counts, no)?;
    counts.join(from);
    Ok(())
}

/// Counts those of a branch that may be passed over.
#[cycle(statements)]
fn count_branch(counts: &mut TargetCounts, yes: &Stmt) -> Result<(), NoMemory>
    ensures { OnOk result (Counts (λ x. max (most x (stmt_view yes.now)) (most_all x (else_of None))) counts.old counts.new) }
{
    let from = counts.named();
    try_branch(counts, yes)?;
    counts.join(from);
    Ok(())
}

/// Counts those of the arms of a `case`. A `default` after the first one is on no path.
#[cycle(statements)]
fn count_arms(counts: &mut TargetCounts, arms: &[CaseArm]) -> Result<(), NoMemory>
    ensures { OnOk result (Counts (λ x. most_of x false (arms_of (map arm_view arms.now))) counts.old counts.new) }
{
    let from = counts.named();
    let mut met = false;
    for arm in arms {
        try_arm(counts, arm, is_second(met, arm))?;
        met = is_met(met, arm);
    }
    counts.join(from);
    Ok(())
}

/// Tries an arm, unless it is on no path.
#[cycle(statements)]
fn try_arm(counts: &mut TargetCounts, arm: &CaseArm, is_off: bool) -> Result<(), NoMemory>
    ensures { OnOk result (Tries (λ x. if is_off then 0 else most x (arm_view arm.now).1) counts.old counts.new) }
{
    if is_off {
        Ok(())
    } else {
        try_branch(counts, &arm.body)
    }
}

/// Finds what a branch names twice, with what was named before it, and leaves the branch.
#[cycle(statements)]
fn try_branch(counts: &mut TargetCounts, stmt: &Stmt) -> Result<(), NoMemory>
    ensures { OnOk result (Tries (λ x. most x (stmt_view stmt.now)) counts.old counts.new) }
{
    let from = counts.named();
    count_stmt(counts, stmt)?;
    counts.leave(from);
    Ok(())
}

/// Whether an arm is a `default`.
fn is_default(arm: &CaseArm) -> bool
    ensures { result ≡ is_default (arm_view arm.now).0 }
{
    arm.labels.is_empty()
}

/// Whether an arm is a `default` after another one.
fn is_second(met: bool, arm: &CaseArm) -> bool
    ensures { result ≡ (met && is_default (arm_view arm.now).0) }
{
    met && is_default(arm)
}

/// Whether a `default` was met, with this arm.
fn is_met(met: bool, arm: &CaseArm) -> bool
    ensures { result ≡ (met || is_default (arm_view arm.now).0) }
{
    met || is_default(arm)
}

/// Counts the parts of a target.
#[cycle(targets)]
fn count_target(counts: &mut TargetCounts, target: &Target) -> Result<(), NoMemory>
    ensures { OnOk result (Counts (λ x. parts_on x (target_view target.now)) counts.old counts.new) }
{
    match target {
        Target::Whole(thing) => counts.name(*thing),
        Target::Part { signal, .. } => counts.name(*signal),
        Target::Word { memory, .. } => counts.name(*memory),
        Target::Several(parts) => count_targets(counts, parts),
    }
}

/// Counts the parts of targets.
#[cycle(targets)]
fn count_targets(counts: &mut TargetCounts, targets: &[Target]) -> Result<(), NoMemory>
    ensures { OnOk result (Counts (λ x. all_parts_on x (targets_of (map target_view targets.now))) counts.old counts.new) }
{
    for target in targets {
        count_target(counts, target)?;
    }
    Ok(())
}
