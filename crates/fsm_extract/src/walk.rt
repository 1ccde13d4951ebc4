#![tactic(auto, using(std::proofs::lemmas::List::append_assoc))]
//! A walk through the body of a process, with the labels that are open.

ghost use Rattle.std.specs.Prelude.{◌≡◌, ◌++◌, ◌∷◌, [], ℕ, Bool, OnOk, map, true};
ghost use Rattle.std.specs.Option.{option_to_list};
ghost use Rattle.design_model.specs.Shape.{are_bodies, is_body};
ghost use Rattle.design_model.specs.View.{arms_of, design_view, stmt_view, stmts_of, terms_of, term_view};
ghost use Rattle.scene_laws.specs.Contexts.{AreArms, AreLabels};
ghost use Rattle.scene_laws.specs.term_replay.Stands.{IsInContext};
ghost use Rattle.fsm_extract.specs.Walked as spec;
ghost use Rattle.fsm_extract.specs.Views.{arm_view};

use crate::machine::Machine;
use cov_host::NoMemory;
use design_model::{CaseArm, Stmt, StmtForm, Term};

/// What a walk has found.
#[derive(Drop)]
pub(crate) struct Found {
    /// The values of the labels of the arms around.
    pub(crate) around: Vec<u128>,
    /// The arcs, in order of the text.
    pub(crate) arcs: Vec<(u128, u128)>,
    /// The values of labels, in order of the text.
    pub(crate) states: Vec<u128>,
}

/// Adds what a statement draws.
#[cycle(walk)]
pub(crate) fn walk_stmt(machine: &Machine, stmt: &Stmt, found: &mut Found) -> Result<(), NoMemory>
    requires { is_body (design_view machine.now.constants.design.now) (stmt_view stmt.now) ≡ true }
    ensures around { OnOk result (found.new.around.items ≡ found.old.around.items) }
    ensures arcs { OnOk result (found.new.arcs.items ≡ found.old.arcs.items ++ spec.arcs_in (design_view machine.now.constants.design.now) machine.now.current machine.now.next found.old.around.items (stmt_view stmt.now)) }
    ensures states { OnOk result (found.new.states.items ≡ found.old.states.items ++ spec.states_in (design_view machine.now.constants.design.now) machine.now.current (stmt_view stmt.now)) }
{
    match &*stmt.form {
        StmtForm::Block(parts) => walk_stmts(machine, parts, found),
        StmtForm::If { yes, no, .. } => {
            walk_stmt(machine, yes, found)?;
            match no {
                Some(no) => walk_stmt(machine, no, found),
                None => Ok(()),
            }
        }
        StmtForm::Case { kind, on, arms, .. } => {
            walk_arms(machine, machine.is_over(*kind, on), arms, found)
        }
        StmtForm::Turns { turns, .. } => walk_stmts(machine, turns, found),
        StmtForm::Set { target, value, .. } => match machine.assigned(target, value) {
            Some(to) => draw(found.around.as_slice(), to, &mut found.arcs),
            None => Ok(()),
        },
        StmtForm::Empty => Ok(()),
    }
}

/// Adds what statements draw.
#[cycle(walk)]
fn walk_stmts(machine: &Machine, stmts: &[Stmt], found: &mut Found) -> Result<(), NoMemory>
    requires { are_bodies (design_view machine.now.constants.design.now) (stmts_of (map stmt_view stmts.now)) ≡ true }
    ensures around { OnOk result (found.new.around.items ≡ found.old.around.items) }
    ensures arcs { OnOk result (found.new.arcs.items ≡ found.old.arcs.items ++ spec.all_arcs_in (design_view machine.now.constants.design.now) machine.now.current machine.now.next found.old.around.items (stmts_of (map stmt_view stmts.now))) }
    ensures states { OnOk result (found.new.states.items ≡ found.old.states.items ++ spec.all_states_in (design_view machine.now.constants.design.now) machine.now.current (stmts_of (map stmt_view stmts.now))) }
{
    for stmt in stmts {
        walk_stmt(machine, stmt, found)?;
    }
    Ok(())
}

/// Adds what the arms of a case draw. Where `over` is true, its labels are values of the machine's state.
#[cycle(walk)]
fn walk_arms(
    machine: &Machine,
    over: bool,
    arms: &[CaseArm],
    found: &mut Found,
) -> Result<(), NoMemory>
    requires { (width : ℕ) × (signed : Bool) × AreArms (design_view machine.now.constants.design.now) width signed (arms_of (map arm_view arms.now)) }
    ensures around { OnOk result (found.new.around.items ≡ found.old.around.items) }
    ensures arcs { OnOk result (found.new.arcs.items ≡ found.old.arcs.items ++ spec.arms_arcs (design_view machine.now.constants.design.now) machine.now.current machine.now.next over found.old.around.items (arms_of (map arm_view arms.now))) }
    ensures states { OnOk result (found.new.states.items ≡ found.old.states.items ++ spec.arms_states (design_view machine.now.constants.design.now) machine.now.current over (arms_of (map arm_view arms.now))) }
{
    for arm in arms {
        walk_arm(machine, over, &arm.labels, &arm.body, found)?;
    }
    Ok(())
}

/// Adds what an arm of a case draws. Its labels are open in its statement alone.
#[cycle(walk)]
fn walk_arm(
    machine: &Machine,
    over: bool,
    labels: &[Term],
    body: &Stmt,
    found: &mut Found,
) -> Result<(), NoMemory>
    requires labels { (width : ℕ) × (signed : Bool) × AreLabels (design_view machine.now.constants.design.now) width signed (terms_of (map term_view labels.now)) }
    requires body { is_body (design_view machine.now.constants.design.now) (stmt_view body.now) ≡ true }
    ensures around { OnOk result (found.new.around.items ≡ found.old.around.items) }
    ensures arcs { OnOk result (found.new.arcs.items ≡ found.old.arcs.items ++ spec.arcs_in (design_view machine.now.constants.design.now) machine.now.current machine.now.next (found.old.around.items ++ spec.opened (design_view machine.now.constants.design.now) machine.now.current over (terms_of (map term_view labels.now))) (stmt_view body.now)) }
    ensures states { OnOk result (found.new.states.items ≡ found.old.states.items ++ spec.opened (design_view machine.now.constants.design.now) machine.now.current over (terms_of (map term_view labels.now)) ++ spec.states_in (design_view machine.now.constants.design.now) machine.now.current (stmt_view body.now)) }
{
    let outside = found.around.len();
    open_labels(machine, over, labels, found)?;
    walk_stmt(machine, body, found)?;
    found.around.truncate(outside);
    Ok(())
}

/// Opens the values that labels match. Where `over` is false, they are no values of the machine's state.
fn open_labels(
    machine: &Machine,
    over: bool,
    labels: &[Term],
    found: &mut Found,
) -> Result<(), NoMemory>
    requires { (width : ℕ) × (signed : Bool) × AreLabels (design_view machine.now.constants.design.now) width signed (terms_of (map term_view labels.now)) }
    ensures around { OnOk result (found.new.around.items ≡ found.old.around.items ++ spec.opened (design_view machine.now.constants.design.now) machine.now.current over (terms_of (map term_view labels.now))) }
    ensures arcs { OnOk result (found.new.arcs.items ≡ found.old.arcs.items) }
    ensures states { OnOk result (found.new.states.items ≡ found.old.states.items ++ spec.opened (design_view machine.now.constants.design.now) machine.now.current over (terms_of (map term_view labels.now))) }
{
    if !over {
        return Ok(());
    }
    for label in labels {
        open_label(machine, label, found)?;
    }
    Ok(())
}

/// Opens the value that a label matches, if there is one.
fn open_label(machine: &Machine, label: &Term, found: &mut Found) -> Result<(), NoMemory>
    requires { IsInContext (design_view machine.now.constants.design.now) (term_view label.now) }
    ensures around { OnOk result (found.new.around.items ≡ found.old.around.items ++ option_to_list (spec.label_value (design_view machine.now.constants.design.now) machine.now.current (term_view label.now))) }
    ensures arcs { OnOk result (found.new.arcs.items ≡ found.old.arcs.items) }
    ensures states { OnOk result (found.new.states.items ≡ found.old.states.items ++ option_to_list (spec.label_value (design_view machine.now.constants.design.now) machine.now.current (term_view label.now))) }
{
    if let Some(value) = machine.label_value(label) {
        found.around.push(value)?;
        found.states.push(value)?;
    }
    Ok(())
}

/// Adds the arcs from the values of the labels around.
fn draw(around: &[u128], to: u128, arcs: &mut Vec<(u128, u128)>) -> Result<(), NoMemory>
    ensures { OnOk result (arcs.new.items ≡ arcs.old.items ++ map (λ from. (from, to)) around.now) }
{
    for from in around {
        arcs.push((*from, to))?;
    }
    Ok(())
}
