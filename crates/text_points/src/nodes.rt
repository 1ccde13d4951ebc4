#![tactic(auto, using(crate::proofs::Joining::joined_nodes))]
//! The cases of the counted nodes of terms, targets and statements, with loops unrolled.

ghost use Rattle.std.specs.Prelude.{◌≡◌, ◌++◌, ◌∷◌, [], OnOk, map};
ghost use Rattle.design_model.specs.Mentions.{all_body_terms, all_index_terms, all_subterms, arm_terms, body_terms, index_terms, subterms};
ghost use Rattle.design_model.specs.Numbered.{counted_terms};
ghost use Rattle.design_model.specs.View.{arms_of, process_view, stmt_view, stmts_of, target_view, targets_of, term_view, terms_of};
ghost use Rattle.text_points.specs.Nodes.{cases_with, inner_terms, node_at, nodes_with};
ghost use Rattle.text_points.specs.Operators.{operator_of};
ghost use Rattle.text_points.specs.View.{arm_view};

use crate::node_cases::node_cases;
use crate::operators::operator_of;
use crate::{NodePoint, Owner};
use cov_host::NoMemory;
use design_model::{CaseArm, Form, NodeCase, Process, Stmt, StmtForm, Target, Term};

/// Adds the cases of the counted nodes of a process.
pub fn push_nodes(
    owner: Owner,
    process: &Process,
    found: &mut Vec<NodePoint>,
) -> Result<(), NoMemory>
    ensures { OnOk result (found.new.items ≡ found.old.items ++ nodes_with owner (counted_terms (process_view process.now))) }
{
    match process {
        Process::Assign {
            target,
            value,
            counted,
            ..
        } => {
            if !*counted {
                return Ok(());
            }
            push_target(owner, target, found)?;
            push_term(owner, value, found)
        }
        Process::Comb { body, .. } | Process::Clocked { body, .. } => {
            push_stmt(owner, body, found)
        }
    }
}

/// Adds the cases of the counted nodes of a statement.
#[cycle(statements)]
fn push_stmt(owner: Owner, stmt: &Stmt, found: &mut Vec<NodePoint>) -> Result<(), NoMemory>
    ensures { OnOk result (found.new.items ≡ found.old.items ++ nodes_with owner (body_terms (stmt_view stmt.now))) }
{
    match &*stmt.form {
        StmtForm::Block(parts) => push_stmts(owner, parts, found),
        StmtForm::If { test, yes, no, .. } => {
            push_term(owner, test, found)?;
            push_stmt(owner, yes, found)?;
            match no {
                Some(no) => push_stmt(owner, no, found),
                None => Ok(()),
            }
        }
        StmtForm::Case { on, arms, .. } => {
            push_term(owner, on, found)?;
            push_arms(owner, arms, found)
        }
        StmtForm::Turns { turns, .. } => push_stmts(owner, turns, found),
        StmtForm::Set { target, value, .. } => {
            push_target(owner, target, found)?;
            push_term(owner, value, found)
        }
        StmtForm::Empty => Ok(()),
    }
}

/// Adds the cases of the counted nodes of statements.
#[cycle(statements)]
fn push_stmts(owner: Owner, stmts: &[Stmt], found: &mut Vec<NodePoint>) -> Result<(), NoMemory>
    ensures { OnOk result (found.new.items ≡ found.old.items ++ nodes_with owner (all_body_terms (stmts_of (map stmt_view stmts.now)))) }
{
    for stmt in stmts {
        push_stmt(owner, stmt, found)?;
    }
    Ok(())
}

/// Adds the cases of the counted nodes of the arms of a case.
#[cycle(statements)]
fn push_arms(owner: Owner, arms: &[CaseArm], found: &mut Vec<NodePoint>) -> Result<(), NoMemory>
    ensures { OnOk result (found.new.items ≡ found.old.items ++ nodes_with owner (arm_terms (arms_of (map arm_view arms.now)))) }
{
    for arm in arms {
        push_terms(owner, &arm.labels, found)?;
        push_stmt(owner, &arm.body, found)?;
    }
    Ok(())
}

/// Adds the cases of the counted nodes of the indexes in a target.
#[cycle(targets)]
fn push_target(owner: Owner, target: &Target, found: &mut Vec<NodePoint>) -> Result<(), NoMemory>
    ensures { OnOk result (found.new.items ≡ found.old.items ++ nodes_with owner (index_terms (target_view target.now))) }
{
    match target {
        Target::Whole(_) => Ok(()),
        Target::Part { low, .. } => push_term(owner, low, found),
        Target::Word { index, .. } => push_term(owner, index, found),
        Target::Several(parts) => push_targets(owner, parts, found),
    }
}

/// Adds the cases of the counted nodes of the indexes in targets.
#[cycle(targets)]
fn push_targets(
    owner: Owner,
    targets: &[Target],
    found: &mut Vec<NodePoint>,
) -> Result<(), NoMemory>
    ensures { OnOk result (found.new.items ≡ found.old.items ++ nodes_with owner (all_index_terms (targets_of (map target_view targets.now)))) }
{
    for target in targets {
        push_target(owner, target, found)?;
    }
    Ok(())
}

/// Adds the cases of a term and of all terms in it.
#[cycle(terms)]
fn push_term(owner: Owner, term: &Term, found: &mut Vec<NodePoint>) -> Result<(), NoMemory>
    ensures { OnOk result (found.new.items ≡ found.old.items ++ nodes_with owner (subterms (term_view term.now))) }
{
    push_cases(owner, term, found)?;
    push_inner(owner, term, found)
}

/// Adds the cases of the terms in a term.
#[cycle(terms)]
fn push_inner(owner: Owner, term: &Term, found: &mut Vec<NodePoint>) -> Result<(), NoMemory>
    ensures { OnOk result (found.new.items ≡ found.old.items ++ nodes_with owner (inner_terms (term_view term.now))) }
{
    match &*term.form {
        Form::Number(_) | Form::Signal(_) => Ok(()),
        Form::Word { index, .. } => push_term(owner, index, found),
        Form::Bit { of, index } => push_two(owner, of, index, found),
        Form::Part { of, high, low } => push_three(owner, of, high, low, found),
        Form::Slide {
            of,
            base,
            width,
            ..
        } => push_three(owner, of, base, width, found),
        Form::Unary(_, a) | Form::Sign(_, a) => push_term(owner, a, found),
        Form::Binary(_, a, b) => push_two(owner, a, b, found),
        Form::Choice { test, yes, no } => push_three(owner, test, yes, no, found),
        Form::Concat(parts) => push_terms(owner, parts, found),
        Form::Repeat(count, parts) => {
            push_term(owner, count, found)?;
            push_terms(owner, parts, found)
        }
    }
}

/// Adds the cases of two terms and of all terms in them.
#[cycle(terms)]
fn push_two(owner: Owner, a: &Term, b: &Term, found: &mut Vec<NodePoint>) -> Result<(), NoMemory>
    ensures { OnOk result (found.new.items ≡ found.old.items ++ nodes_with owner (subterms (term_view a.now) ++ subterms (term_view b.now))) }
{
    push_term(owner, a, found)?;
    push_term(owner, b, found)
}

/// Adds the cases of three terms and of all terms in them.
#[cycle(terms)]
fn push_three(
    owner: Owner,
    a: &Term,
    b: &Term,
    c: &Term,
    found: &mut Vec<NodePoint>,
) -> Result<(), NoMemory>
    ensures { OnOk result (found.new.items ≡ found.old.items ++ nodes_with owner (subterms (term_view a.now) ++ subterms (term_view b.now) ++ subterms (term_view c.now))) }
{
    push_term(owner, a, found)?;
    push_term(owner, b, found)?;
    push_term(owner, c, found)
}

/// Adds the cases of terms and of all terms in them.
#[cycle(terms)]
fn push_terms(owner: Owner, terms: &[Term], found: &mut Vec<NodePoint>) -> Result<(), NoMemory>
    ensures { OnOk result (found.new.items ≡ found.old.items ++ nodes_with owner (all_subterms (terms_of (map term_view terms.now)))) }
{
    for term in terms {
        push_term(owner, term, found)?;
    }
    Ok(())
}

/// Adds the cases of a term, if it is a counted node.
fn push_cases(owner: Owner, term: &Term, found: &mut Vec<NodePoint>) -> Result<(), NoMemory>
    ensures { OnOk result (found.new.items ≡ found.old.items ++ cases_with owner (term_view term.now)) }
{
    match term.node {
        Some(node) => push_each(owner, node, term, node_cases(term), found),
        None => Ok(()),
    }
}

/// Adds these cases of a term with a number.
fn push_each(
    owner: Owner,
    node: u32,
    term: &Term,
    cases: &[NodeCase],
    found: &mut Vec<NodePoint>,
) -> Result<(), NoMemory>
    ensures { OnOk result (found.new.items ≡ found.old.items ++ map (node_at owner node term.now.place (operator_of (term_view term.now))) cases.now) }
{
    let operator = operator_of(term);
    for case in cases {
        found.push(NodePoint {
            instance: owner.instance,
            node,
            case: *case,
            process: owner.process,
            place: term.place,
            operator,
        })?;
    }
    Ok(())
}
