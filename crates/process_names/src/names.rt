#![tactic(auto, using(std::proofs::lemmas::List::append_assoc))]
//! The signals and memories that the text of a process mentions or lists, in the order in which its execution reads.

ghost use Rattle.std.specs.Prelude.{◌≡◌, ◌++◌, ◌∷◌, [], OnOk, map};
ghost use Rattle.design_model.specs.Execution.{is_default};
ghost use Rattle.design_model.specs.View.{arms_of, process_view, stmt_view, stmts_of, target_view, targets_of, term_view, terms_of};
ghost use Rattle.process_names.specs.Names.{all_body_names, all_index_names, all_term_names, arm_names, arm_view, body_names, default_names, index_names, level_names, term_names};

use cov_host::NoMemory;
use design_model::{CaseArm, Form, Process, Stmt, StmtForm, Target, Term};

/// Adds what wakes a process at each change: what an Assign or Comb mentions or lists.
pub fn push_level(process: &Process, found: &mut Vec<u32>) -> Result<(), NoMemory>
    ensures { OnOk result (found.new.items ≡ found.old.items ++ level_names (process_view process.now)) }
{
    match process {
        Process::Assign { target, value, .. } => {
            push_target(target, found)?;
            push_term(value, found)
        }
        Process::Comb { wakes, body, .. } => {
            push_stmt(body, found)?;
            found.extend_from_slice(wakes.as_slice())?;
            Ok(())
        }
        Process::Clocked { .. } => Ok(()),
    }
}

/// Adds what a statement mentions.
#[cycle(statements)]
fn push_stmt(stmt: &Stmt, found: &mut Vec<u32>) -> Result<(), NoMemory>
    ensures { OnOk result (found.new.items ≡ found.old.items ++ body_names (stmt_view stmt.now)) }
{
    match &*stmt.form {
        StmtForm::Block(parts) => push_stmts(parts, found),
        StmtForm::If { test, yes, no, .. } => {
            push_term(test, found)?;
            push_stmt(yes, found)?;
            match no {
                Some(no) => push_stmt(no, found),
                None => Ok(()),
            }
        }
        StmtForm::Case { on, arms, .. } => {
            push_term(on, found)?;
            push_arms(arms, found)?;
            push_default(arms, found)
        }
        StmtForm::Turns { turns, .. } => push_stmts(turns, found),
        StmtForm::Set { target, value, .. } => {
            push_target(target, found)?;
            push_term(value, found)
        }
        StmtForm::Empty => Ok(()),
    }
}

/// Adds what statements mention.
#[cycle(statements)]
fn push_stmts(stmts: &[Stmt], found: &mut Vec<u32>) -> Result<(), NoMemory>
    ensures { OnOk result (found.new.items ≡ found.old.items ++ all_body_names (stmts_of (map stmt_view stmts.now))) }
{
    for stmt in stmts {
        push_stmt(stmt, found)?;
    }
    Ok(())
}

/// Adds what the labels of a case mention, and after those of an arm what its statement mentions, but not what the
/// default mentions.
#[cycle(statements)]
fn push_arms(arms: &[CaseArm], found: &mut Vec<u32>) -> Result<(), NoMemory>
    ensures { OnOk result (found.new.items ≡ found.old.items ++ arm_names (arms_of (map arm_view arms.now))) }
{
    for arm in arms {
        push_terms(&arm.labels, found)?;
        if !is_default(arm) {
            push_stmt(&arm.body, found)?;
        }
    }
    Ok(())
}

/// Adds what the default of a case mentions, which is run after all labels were read.
#[cycle(statements)]
fn push_default(arms: &[CaseArm], found: &mut Vec<u32>) -> Result<(), NoMemory>
    ensures { OnOk result (found.new.items ≡ found.old.items ++ default_names (arms_of (map arm_view arms.now))) }
{
    for arm in arms {
        if is_default(arm) {
            push_stmt(&arm.body, found)?;
        }
    }
    Ok(())
}

/// Whether an arm is a `default`.
fn is_default(arm: &CaseArm) -> bool
    ensures { result ≡ is_default (arm_view arm.now).0 }
{
    arm.labels.is_empty()
}

/// Adds what the indexes in a target name.
#[cycle(targets)]
fn push_target(target: &Target, found: &mut Vec<u32>) -> Result<(), NoMemory>
    ensures { OnOk result (found.new.items ≡ found.old.items ++ index_names (target_view target.now)) }
{
    match target {
        Target::Whole(_) => Ok(()),
        Target::Part { low, .. } => push_term(low, found),
        Target::Word { index, .. } => push_term(index, found),
        Target::Several(parts) => push_targets(parts, found),
    }
}

/// Adds what the indexes in targets name.
#[cycle(targets)]
fn push_targets(targets: &[Target], found: &mut Vec<u32>) -> Result<(), NoMemory>
    ensures { OnOk result (found.new.items ≡ found.old.items ++ all_index_names (targets_of (map target_view targets.now))) }
{
    for target in targets {
        push_target(target, found)?;
    }
    Ok(())
}

/// Adds what a term mentions, an index before what it indexes.
#[cycle(terms)]
fn push_term(term: &Term, found: &mut Vec<u32>) -> Result<(), NoMemory>
    ensures { OnOk result (found.new.items ≡ found.old.items ++ term_names (term_view term.now)) }
{
    match &*term.form {
        Form::Number(_) => Ok(()),
        Form::Signal(signal) => push_name(*signal, found),
        Form::Word { memory, index } => {
            push_term(index, found)?;
            push_name(*memory, found)
        }
        Form::Bit { of, index } => push_two(index, of, found),
        Form::Part { of, high, low } => push_three(high, low, of, found),
        Form::Slide {
            of,
            base,
            width,
            ..
        } => push_three(base, width, of, found),
        Form::Unary(_, a) | Form::Sign(_, a) => push_term(a, found),
        Form::Binary(_, a, b) => push_two(a, b, found),
        Form::Choice { test, yes, no } => push_three(test, yes, no, found),
        Form::Concat(parts) => push_terms(parts, found),
        Form::Repeat(count, parts) => {
            push_term(count, found)?;
            push_terms(parts, found)
        }
    }
}

/// Adds what two terms mention.
#[cycle(terms)]
fn push_two(a: &Term, b: &Term, found: &mut Vec<u32>) -> Result<(), NoMemory>
    ensures { OnOk result (found.new.items ≡ found.old.items ++ (term_names (term_view a.now) ++ term_names (term_view b.now))) }
{
    push_term(a, found)?;
    push_term(b, found)
}

/// Adds what three terms mention.
#[cycle(terms)]
fn push_three(a: &Term, b: &Term, c: &Term, found: &mut Vec<u32>) -> Result<(), NoMemory>
    ensures { OnOk result (found.new.items ≡ found.old.items ++ (term_names (term_view a.now) ++ term_names (term_view b.now) ++ term_names (term_view c.now))) }
{
    push_term(a, found)?;
    push_term(b, found)?;
    push_term(c, found)
}

/// Adds what terms mention.
#[cycle(terms)]
fn push_terms(terms: &[Term], found: &mut Vec<u32>) -> Result<(), NoMemory>
    ensures { OnOk result (found.new.items ≡ found.old.items ++ all_term_names (terms_of (map term_view terms.now))) }
{
    for term in terms {
        push_term(term, found)?;
    }
    Ok(())
}

/// Adds a signal or memory.
fn push_name(thing: u32, found: &mut Vec<u32>) -> Result<(), NoMemory>
    ensures { OnOk result (found.new.items ≡ found.old.items ++ thing ∷ []) }
{
    found.push(thing)?;
    Ok(())
}
