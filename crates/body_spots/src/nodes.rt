#![tactic(auto, using(crate::proofs::Hits::hits_then, crate::proofs::Hits::hits_none))]
//! The cases of a counted node.

ghost use Rattle.std.specs.Prelude.{◌≡◌, ◌∷◌, [], map};
ghost use Rattle.four_state.specs.declared.operator.Binary.{Binary as TheBinary};
ghost use Rattle.point_words.specs.declared.node_case.NodeCase.TheVariants as cases;
ghost use Rattle.design_model.specs.View.{term_view};
ghost use Rattle.value_store.specs.body_replay.Contract.{node_spots, two_spots};
ghost use Rattle.value_store.specs.body_replay.Replay.{hit, node as node_spot};
ghost use Rattle.term_replay.specs.Noted.{Adds};
ghost use Rattle.body_spots.specs.Spots.{own_cases};

use design_model::{Form, NodeCase, Term};
use four_state::Binary;
use term_replay::{Notes, Spot};

/// The cases of a node by its own value.
static OWN_CASES: [NodeCase; 2] = [NodeCase::ValueFalse, NodeCase::ValueTrue];

/// The cases of an operator that one false operand decides.
static AND_CASES: [NodeCase; 3] = [
    NodeCase::BothTrue,
    NodeCase::LeftFalse,
    NodeCase::RightFalse,
];

/// The cases of an operator that one true operand decides.
static OR_CASES: [NodeCase; 3] = [NodeCase::BothFalse, NodeCase::LeftTrue, NodeCase::RightTrue];

/// The cases of any other operator with two operands.
static FOUR_CASES: [NodeCase; 4] = [
    NodeCase::BothFalse,
    NodeCase::FalseTrue,
    NodeCase::TrueFalse,
    NodeCase::BothTrue,
];

/// The cases that the node of a term can have.
fn cases_of(term: &Term) -> &'static [NodeCase]
    ensures { result.now ≡ own_cases (term_view term.now) }
{
    match &*term.form {
        Form::Binary(op, _, _) => operator_cases(*op),
        _ => &OWN_CASES,
    }
}

/// The cases of an operator with two operands.
fn operator_cases(op: Binary) -> &'static [NodeCase]
    ensures { result.now ≡ two_spots op }
{
    match op {
        Binary::BitwiseAnd | Binary::LogicalAnd => &AND_CASES,
        Binary::BitwiseOr | Binary::LogicalOr => &OR_CASES,
        _ => &FOUR_CASES,
    }
}

/// Notes the cases of the node of a term, if it is counted.
pub(crate) fn note_node<N: Notes>(term: &Term, notes: &mut N)
    ensures { Adds N.noted notes.old (map hit (node_spots term.now.node (own_cases (term_view term.now)))) notes.new }
{
    if let Some(node) = term.node {
        note_cases(node, cases_of(term), notes);
    }
}

/// Notes these cases of a node.
fn note_cases<N: Notes>(node: u32, cases: &[NodeCase], notes: &mut N)
    ensures { Adds N.noted notes.old (map hit (map (node_spot node) cases.now)) notes.new }
{
    for case in cases {
        notes.note(Spot::Node { node, case: *case }, None);
    }
}
