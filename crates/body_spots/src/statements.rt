#![tactic(auto, using(crate::proofs::Hits::hits_then, crate::proofs::Hits::hits_none))]
//! The spots of statements.

ghost use Rattle.std.specs.Prelude.{◌≡◌, ◌++◌, ◌∷◌, [], map};
ghost use Rattle.design_model.specs.Design.{body};
ghost use Rattle.design_model.specs.View.{arms_of, design_view, process_view, stmt_view, stmts_of, target_view, term_view};
ghost use Rattle.value_store.specs.body_replay.Contract.{all_spots, arms_spots, body_spots, target_spots, term_spots};
ghost use Rattle.value_store.specs.body_replay.Replay.{hit, line as line_spot};
ghost use Rattle.term_replay.specs.Noted.{Adds};
ghost use Rattle.value_store.specs.Rooms.{arm_view};

use crate::targets::note_target;
use crate::terms::{note_term, note_terms};
use design_model::{CaseArm, Design, Process, Stmt, StmtForm, Target, Term};
use term_replay::{Notes, Spot};

/// Notes all spots of the body of a process as hits, in order. That of an `Assign` is its one assignment, at line 0, which is
/// the number of no line point.
pub fn note_spots<N: Notes>(design: &Design, process: &Process, notes: &mut N)
    ensures { Adds N.noted notes.old (map hit (body_spots (design_view design.now) (body (process_view process.now)))) notes.new }
{
    match process {
        Process::Assign { target, value, .. } => note_set(design, 0, target, value, notes),
        Process::Comb { body, .. } | Process::Clocked { body, .. } => {
            note_stmt(design, body, notes);
        }
    }
}

/// Notes all spots of an assignment.
fn note_set<N: Notes>(design: &Design, line: u32, target: &Target, value: &Term, notes: &mut N)
    ensures { Adds N.noted notes.old (map hit ((line_spot line ∷ target_spots (design_view design.now) (target_view target.now)) ++ term_spots (design_view design.now) (term_view value.now))) notes.new }
{
    note_line(line, notes);
    note_target(design, target, notes);
    note_term(design, value, notes);
}

/// Notes all spots of a statement.
#[cycle(statements)]
fn note_stmt<N: Notes>(design: &Design, stmt: &Stmt, notes: &mut N)
    ensures { Adds N.noted notes.old (map hit (body_spots (design_view design.now) (stmt_view stmt.now))) notes.new }
{
    match &*stmt.form {
        StmtForm::Block(parts) => note_all(design, parts, notes),
        StmtForm::If {
            line,
            test,
            yes,
            no,
        } => {
            note_line(*line, notes);
            note_term(design, test, notes);
            note_stmt(design, yes, notes);
            if let Some(no) = no {
                note_stmt(design, no, notes);
            }
        }
        StmtForm::Case { line, on, arms, .. } => {
            note_line(*line, notes);
            note_term(design, on, notes);
            note_arms(design, arms, notes);
        }
        StmtForm::Turns { line, turns } => {
            note_line(*line, notes);
            note_all(design, turns, notes);
        }
        StmtForm::Set {
            line,
            target,
            value,
            ..
        } => note_set(design, *line, target, value, notes),
        StmtForm::Empty => {}
    }
}

/// Notes all spots of statements.
#[cycle(statements)]
fn note_all<N: Notes>(design: &Design, stmts: &[Stmt], notes: &mut N)
    ensures { Adds N.noted notes.old (map hit (all_spots (design_view design.now) (stmts_of (map stmt_view stmts.now)))) notes.new }
{
    for stmt in stmts {
        note_stmt(design, stmt, notes);
    }
}

/// Notes all spots of the arms of a case.
#[cycle(statements)]
fn note_arms<N: Notes>(design: &Design, arms: &[CaseArm], notes: &mut N)
    ensures { Adds N.noted notes.old (map hit (arms_spots (design_view design.now) (arms_of (map arm_view arms.now)))) notes.new }
{
    for arm in arms {
        note_terms(design, &arm.labels, notes);
        note_stmt(design, &arm.body, notes);
    }
}

/// Notes a statement.
fn note_line<N: Notes>(line: u32, notes: &mut N)
    ensures { Adds N.noted notes.old (map hit (line_spot line ∷ [])) notes.new }
{
    notes.note(Spot::Line(line), None);
}
