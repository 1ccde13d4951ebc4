#![tactic(auto, using(std::proofs::lemmas::List::append_assoc))]
//! The signals and memories that the text of a process assigns.

ghost use Rattle.std.specs.Prelude.{◌≡◌, ◌++◌, ◌∷◌, [], OnOk, map};
ghost use Rattle.design_model.specs.Design.{body};
ghost use Rattle.design_model.specs.View.{arms_of, process_view, stmt_view, stmts_of, target_view, targets_of};
ghost use Rattle.process_names.specs.Assigned.{all_assigned, all_target_names, arms_assigned, assigned, target_names};
ghost use Rattle.process_names.specs.Names.{arm_view};

use cov_host::NoMemory;
use design_model::{CaseArm, Process, Stmt, StmtForm, Target};

/// Adds what a process assigns by blocking assignments, or with `false` by nonblocking ones. An Assign counts as one
/// blocking assignment.
pub fn push_assigned(
    blocking: bool,
    process: &Process,
    found: &mut Vec<u32>,
) -> Result<(), NoMemory>
    ensures { OnOk result (found.new.items ≡ found.old.items ++ assigned blocking (body (process_view process.now))) }
{
    match process {
        Process::Assign { target, .. } => {
            if blocking {
                push_target(target, found)
            } else {
                Ok(())
            }
        }
        Process::Comb { body, .. } | Process::Clocked { body, .. } => {
            push_stmt(blocking, body, found)
        }
    }
}

/// Adds what a statement assigns.
#[cycle(statements)]
fn push_stmt(blocking: bool, stmt: &Stmt, found: &mut Vec<u32>) -> Result<(), NoMemory>
    ensures { OnOk result (found.new.items ≡ found.old.items ++ assigned blocking (stmt_view stmt.now)) }
{
    match &*stmt.form {
        StmtForm::Block(parts) => push_stmts(blocking, parts, found),
        StmtForm::If { yes, no, .. } => {
            push_stmt(blocking, yes, found)?;
            match no {
                Some(no) => push_stmt(blocking, no, found),
                None => Ok(()),
            }
        }
        StmtForm::Case { arms, .. } => push_arms(blocking, arms, found),
        StmtForm::Turns { turns, .. } => push_stmts(blocking, turns, found),
        StmtForm::Set {
            blocking: kind,
            target,
            ..
        } => {
            if *kind == blocking {
                push_target(target, found)
            } else {
                Ok(())
            }
        }
        StmtForm::Empty => Ok(()),
    }
}

/// Adds what statements assign.
#[cycle(statements)]
fn push_stmts(blocking: bool, stmts: &[Stmt], found: &mut Vec<u32>) -> Result<(), NoMemory>
    ensures { OnOk result (found.new.items ≡ found.old.items ++ all_assigned blocking (stmts_of (map stmt_view stmts.now))) }
{
    for stmt in stmts {
        push_stmt(blocking, stmt, found)?;
    }
    Ok(())
}

/// Adds what the arms of a case assign.
#[cycle(statements)]
fn push_arms(blocking: bool, arms: &[CaseArm], found: &mut Vec<u32>) -> Result<(), NoMemory>
    ensures { OnOk result (found.new.items ≡ found.old.items ++ arms_assigned blocking (arms_of (map arm_view arms.now))) }
{
    for arm in arms {
        push_stmt(blocking, &arm.body, found)?;
    }
    Ok(())
}

/// Adds what a target names.
#[cycle(targets)]
fn push_target(target: &Target, found: &mut Vec<u32>) -> Result<(), NoMemory>
    ensures { OnOk result (found.new.items ≡ found.old.items ++ target_names (target_view target.now)) }
{
    match target {
        Target::Whole(signal) | Target::Part { signal, .. } => found.push(*signal)?,
        Target::Word { memory, .. } => found.push(*memory)?,
        Target::Several(parts) => return push_targets(parts, found),
    }
    Ok(())
}

/// Adds what targets name.
#[cycle(targets)]
fn push_targets(targets: &[Target], found: &mut Vec<u32>) -> Result<(), NoMemory>
    ensures { OnOk result (found.new.items ≡ found.old.items ++ all_target_names (targets_of (map target_view targets.now))) }
{
    for target in targets {
        push_target(target, found)?;
    }
    Ok(())
}
