#![tactic(auto, using(crate::proofs::Joining::joined_lines))]
//! The line points of statements, once for each time that a statement occurs with its loops unrolled.

ghost use Rattle.std.specs.Prelude.{◌≡◌, ◌++◌, ◌∷◌, [], OnOk, map};
ghost use Rattle.design_model.specs.Numbered.{lines_of, lines, all_lines, arm_lines, line_at};
ghost use Rattle.design_model.specs.View.{arms_of, process_view, stmt_view, stmts_of};
ghost use Rattle.text_points.specs.Lines.{lines_with};
ghost use Rattle.text_points.specs.View.{arm_view};

use crate::{LinePoint, Owner};
use cov_host::{NoMemory, Place};
use design_model::{CaseArm, LineWord, Process, Stmt, StmtForm};

/// Adds the line points of a process.
pub fn push_lines(
    owner: Owner,
    process: &Process,
    found: &mut Vec<LinePoint>,
) -> Result<(), NoMemory>
    ensures { OnOk result (found.new.items ≡ found.old.items ++ lines_with owner (lines_of (process_view process.now))) }
{
    match process {
        Process::Assign { .. } => Ok(()),
        Process::Comb { body, .. } | Process::Clocked { body, .. } => {
            push_stmt(owner, body, found)
        }
    }
}

/// Adds the line points of a statement.
#[cycle(lines)]
fn push_stmt(owner: Owner, stmt: &Stmt, found: &mut Vec<LinePoint>) -> Result<(), NoMemory>
    ensures { OnOk result (found.new.items ≡ found.old.items ++ lines_with owner (lines (stmt_view stmt.now))) }
{
    let place = stmt.place;
    match &*stmt.form {
        StmtForm::Block(parts) => push_all(owner, parts, found),
        StmtForm::If { line, yes, no, .. } => {
            push_line(owner, *line, place, LineWord::If, found)?;
            push_stmt(owner, yes, found)?;
            match no {
                Some(no) => push_stmt(owner, no, found),
                None => Ok(()),
            }
        }
        StmtForm::Case { line, arms, .. } => {
            push_line(owner, *line, place, LineWord::Case, found)?;
            push_arms(owner, arms, found)
        }
        StmtForm::Turns { line, turns } => {
            push_line(owner, *line, place, LineWord::For, found)?;
            push_all(owner, turns, found)
        }
        StmtForm::Set { line, .. } => push_line(owner, *line, place, LineWord::Assign, found),
        StmtForm::Empty => Ok(()),
    }
}

/// Adds the line points of statements.
#[cycle(lines)]
fn push_all(owner: Owner, stmts: &[Stmt], found: &mut Vec<LinePoint>) -> Result<(), NoMemory>
    ensures { OnOk result (found.new.items ≡ found.old.items ++ lines_with owner (all_lines (stmts_of (map stmt_view stmts.now)))) }
{
    for stmt in stmts {
        push_stmt(owner, stmt, found)?;
    }
    Ok(())
}

/// Adds the line points of the arms of a case.
#[cycle(lines)]
fn push_arms(owner: Owner, arms: &[CaseArm], found: &mut Vec<LinePoint>) -> Result<(), NoMemory>
    ensures { OnOk result (found.new.items ≡ found.old.items ++ lines_with owner (arm_lines (arms_of (map arm_view arms.now)))) }
{
    for arm in arms {
        push_stmt(owner, &arm.body, found)?;
    }
    Ok(())
}

/// Adds one line point.
fn push_line(
    owner: Owner,
    line: u32,
    place: Place,
    word: LineWord,
    found: &mut Vec<LinePoint>,
) -> Result<(), NoMemory>
    ensures { OnOk result (found.new.items ≡ found.old.items ++ lines_with owner (line_at line place word ∷ [])) }
{
    found.push(LinePoint {
        instance: owner.instance,
        line,
        process: owner.process,
        place,
        word,
    })?;
    Ok(())
}
