#![tactic(auto, using(std::proofs::lemmas::List::append_assoc, crate::proofs::Lists::pushed_one))]
//! The parts of the targets of a process.

ghost use Rattle.std.specs.Prelude.{◌≡◌, ◌++◌, OnOk, map};
ghost use Rattle.design_model.specs.Design.{body};
ghost use Rattle.design_model.specs.View.{arms_of, process_view, stmt_view, stmts_of, target_view, targets_of};
ghost use Rattle.process_names.specs.Names.{arm_view};
ghost use Rattle.design_targets.specs.Leaves.{all_leaves, all_target_leaves, arms_leaves, leaf_view, leaves, target_leaves};

use cov_host::NoMemory;
use design_model::{CaseArm, Process, Stmt, StmtForm, Target, Term};

/// A part of a target that has no parts of its own.
#[derive(Clone, Copy)]
pub struct Leaf<'a> {
    /// The signal or memory.
    pub thing: u32,
    /// Of a part of a signal the index of the lowest bit, and the number of bits.
    pub part: Option<(&'a Term, u8)>,
}

/// Adds the targets of the blocking assignments of a process, or with `false` of its nonblocking ones. An Assign counts
/// as one blocking assignment.
pub fn push_leaves<'a>(
    blocking: bool,
    process: &'a Process,
    found: &mut Vec<Leaf<'a>>,
) -> Result<(), NoMemory>
    ensures { OnOk result (map leaf_view found.new.items ≡ map leaf_view found.old.items ++ leaves blocking (body (process_view process.now))) }
{
    match process {
        Process::Assign { target, .. } => {
            if blocking {
                push_target(target, found)
            } else {
                Ok(())
            }
        }
        Process::Comb { body, .. } | Process::Clocked { body, .. } => {
            push_stmt(blocking, body, found)
        }
    }
}

/// Adds the targets of a statement.
#[cycle(statements)]
fn push_stmt<'a>(blocking: bool, stmt: &'a Stmt, found: &mut Vec<Leaf<'a>>) -> Result<(), NoMemory>
    ensures { OnOk result (map leaf_view found.new.items ≡ map leaf_view found.old.items ++ leaves blocking (stmt_view stmt.now)) }
{
    match &*stmt.form {
        StmtForm::Block(parts) => push_stmts(blocking, parts, found),
        StmtForm::If { yes, no, .. } => {
            push_stmt(blocking, yes, found)?;
            match no {
                Some(no) => push_stmt(blocking, no, found),
                None => Ok(()),
            }
        }
        StmtForm::Case { arms, .. } => push_arms(blocking, arms, found),
        StmtForm::Turns { turns, .. } => push_stmts(blocking, turns, found),
        StmtForm::Set {
            blocking: kind,
            target,
            ..
        } => {
            if *kind == blocking {
                push_target(target, found)
            } else {
                Ok(())
            }
        }
        StmtForm::Empty => Ok(()),
    }
}

/// Adds the targets of statements.
#[cycle(statements)]
fn push_stmts<'a>(
    blocking: bool,
    stmts: &'a [Stmt],
    found: &mut Vec<Leaf<'a>>,
) -> Result<(), NoMemory>
    ensures { OnOk result (map leaf_view found.new.items ≡ map leaf_view found.old.items ++ all_leaves blocking (stmts_of (map stmt_view stmts.now))) }
{
    for stmt in stmts {
        push_stmt(blocking, stmt, found)?;
    }
    Ok(())
}

/// Adds the targets of the arms of a case.
#[cycle(statements)]
fn push_arms<'a>(
    blocking: bool,
    arms: &'a [CaseArm],
    found: &mut Vec<Leaf<'a>>,
) -> Result<(), NoMemory>
    ensures { OnOk result (map leaf_view found.new.items ≡ map leaf_view found.old.items ++ arms_leaves blocking (arms_of (map arm_view arms.now))) }
{
    for arm in arms {
        push_stmt(blocking, &arm.body, found)?;
    }
    Ok(())
}

/// Adds the parts of a target.
#[cycle(targets)]
fn push_target<'a>(target: &'a Target, found: &mut Vec<Leaf<'a>>) -> Result<(), NoMemory>
    ensures { OnOk result (map leaf_view found.new.items ≡ map leaf_view found.old.items ++ target_leaves (target_view target.now)) }
{
    match target {
        Target::Whole(thing) | Target::Word { memory: thing, .. } => found.push(Leaf {
            thing: *thing,
            part: None,
        })?,
        Target::Part { signal, low, width } => found.push(Leaf {
            thing: *signal,
            part: Some((low, *width)),
        })?,
        Target::Several(parts) => return push_targets(parts, found),
    }
    Ok(())
}

/// Adds the parts of targets.
#[cycle(targets)]
fn push_targets<'a>(targets: &'a [Target], found: &mut Vec<Leaf<'a>>) -> Result<(), NoMemory>
    ensures { OnOk result (map leaf_view found.new.items ≡ map leaf_view found.old.items ++ all_target_leaves (targets_of (map target_view targets.now))) }
{
    for target in targets {
        push_target(target, found)?;
    }
    Ok(())
}
