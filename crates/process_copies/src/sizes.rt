//! How many parts the bodies of processes have, counted down to nothing.

use design_model::{CaseArm, Form, Process, Stmt, StmtForm, Target, Term};

/// The most terms, targets and statements that are copied.
const MOST: u32 = 1_048_576;

/// Whether the bodies of processes have at most 1,048,576 terms, targets and statements together: their copies take
/// some 150 MB at most. Loops that are written out can make more.
pub(crate) fn are_small(processes: &[Process]) -> bool {
    let mut left = MOST + 1;
    for process in processes {
        left = after_process(process, left);
    }
    left > 0
}

/// What is left after a process.
fn after_process(process: &Process, left: u32) -> u32 {
    match process {
        Process::Assign { target, value, .. } => after_term(value, after_target(target, left)),
        Process::Comb { body, .. } | Process::Clocked { body, .. } => after_stmt(body, left),
    }
}

/// What is left after a statement.
#[cycle(statements)]
fn after_stmt(stmt: &Stmt, left: u32) -> u32 {
    if left == 0 {
        return 0;
    }
    let left = left - 1;
    match &*stmt.form {
        StmtForm::Block(parts) => after_stmts(parts, left),
        StmtForm::If { test, yes, no, .. } => {
            let left = after_stmt(yes, after_term(test, left));
            match no {
                Some(no) => after_stmt(no, left),
                None => left,
            }
        }
        StmtForm::Case { on, arms, .. } => after_arms(arms, after_term(on, left)),
        StmtForm::Turns { turns, .. } => after_stmts(turns, left),
        StmtForm::Set { target, value, .. } => after_term(value, after_target(target, left)),
        StmtForm::Empty => left,
    }
}

/// What is left after statements.
#[cycle(statements)]
fn after_stmts(stmts: &[Stmt], left: u32) -> u32 {
    let mut left = left;
    for stmt in stmts {
        left = after_stmt(stmt, left);
    }
    left
}

/// What is left after the arms of a case.
#[cycle(statements)]
fn after_arms(arms: &[CaseArm], left: u32) -> u32 {
    let mut left = left;
    for arm in arms {
        left = after_stmt(&arm.body, after_terms(&arm.labels, left));
    }
    left
}

/// What is left after a target.
#[cycle(targets)]
fn after_target(target: &Target, left: u32) -> u32 {
    if left == 0 {
        return 0;
    }
    let left = left - 1;
    match target {
        Target::Whole(_) => left,
        Target::Part { low, .. } => after_term(low, left),
        Target::Word { index, .. } => after_term(index, left),
        Target::Several(targets) => after_targets(targets, left),
    }
}

/// What is left after targets.
#[cycle(targets)]
fn after_targets(targets: &[Target], left: u32) -> u32 {
    let mut left = left;
    for target in targets {
        left = after_target(target, left);
    }
    left
}

/// What is left after a term.
#[cycle(terms)]
fn after_term(term: &Term, left: u32) -> u32 {
    if left == 0 {
        return 0;
    }
    let left = left - 1;
    match &*term.form {
        Form::Number(_) | Form::Signal(_) => left,
        Form::Word { index, .. } => after_term(index, left),
        Form::Bit { of, index } => after_two(of, index, left),
        Form::Part { of, high, low } => after_term(of, after_two(high, low, left)),
        Form::Slide {
            of,
            base,
            width,
            ..
        } => after_term(of, after_two(base, width, left)),
        Form::Unary(_, a) | Form::Sign(_, a) => after_term(a, left),
        Form::Binary(_, a, b) => after_two(a, b, left),
        Form::Choice { test, yes, no } => after_term(test, after_two(yes, no, left)),
        Form::Concat(parts) => after_terms(parts, left),
        Form::Repeat(count, parts) => after_terms(parts, after_term(count, left)),
    }
}

/// What is left after two terms.
#[cycle(terms)]
fn after_two(a: &Term, b: &Term, left: u32) -> u32 {
    after_term(b, after_term(a, left))
}

/// What is left after terms.
#[cycle(terms)]
fn after_terms(terms: &[Term], left: u32) -> u32 {
    let mut left = left;
    for term in terms {
        left = after_term(term, left);
    }
    left
}
