//! The cases of a counted node, each noted as a hit, as a doubt or not at all.

ghost use Rattle.std.specs.Prelude.{◌≡◌, ◌==◌, ◌&&◌, ◌∷◌, [], ℕ, Option, if◌then◌else◌};
ghost use Rattle.four_state.specs.declared.truth.Truth.TheVariants as truth;
ghost use Rattle.design_model.specs.point_words.declared.node_case.NodeCase.TheVariants as cases;
ghost use Rattle.body_replay.specs.Replay.{ask, case_mark, case_marks, node_marks, one_case, two_case, two_known, four_known};
ghost use Rattle.term_replay.specs.Noted.{Adds, in_this, own_cases, and_cases, or_cases};
ghost use Rattle.term_replay.specs.Questions.{answer_of, blame_in};
ghost use Rattle.known_state.specs.Partly.{whole_of};
ghost use Rattle.term_replay.specs.Plain.{IsSmall, and_marks, case_of, number_at, or_marks, sure_mark, sure_marks};
ghost use Rattle.term_replay.specs.declared.head.TermHead.{TermHead};

use crate::answers::{both, is_false, is_true};
use crate::{Notes, Spot};
use design_model::NodeCase;
use four_state::Binary;
use known_state::{Known, Maybe};

/// Notes a case by its answer. In a branch of an undecided test, which `mode` is to blame for, it is a doubt by that test.
fn note_case<N: Notes>(node: u32, case: NodeCase, answer: Maybe, mode: Option<u32>, notes: &mut N)
    ensures { Adds N.noted notes.old (in_this mode (case_mark node case (answer_of answer) (blame_in answer))) notes.new }
{
    let spot = Spot::Node { node, case };
    match answer {
        Maybe::No => {}
        Maybe::Yes => notes.note(spot, mode),
        Maybe::Unsure(thing) => notes.note(spot, Some(mode.unwrap_or(thing))),
    }
}

/// Notes the cases of a node by its own value, if it is counted.
pub fn note_own<N: Notes>(node: Option<u32>, value: &Known, mode: Option<u32>, notes: &mut N)
    ensures { Adds N.noted notes.old (in_this mode (node_marks node (own_cases value.now.bits value.now.blame))) notes.new }
{
    if let Some(node) = node {
        note_case(node, NodeCase::ValueFalse, is_false(value), mode, notes);
        note_case(node, NodeCase::ValueTrue, is_true(value), mode, notes);
    }
}

/// Notes the case of a node by its own value, if it is counted, where the value is a number.
pub(crate) fn note_number<N: Notes>(
    node: Option<u32>,
    number: u64,
    mode: Option<u32>,
    notes: &mut N,
)
    ensures { (x : TermHead) → IsSmall x number → Adds N.noted notes.old (in_this mode (node_marks node (own_cases (whole_of (number_at x number)).bits 0))) notes.new }
{
    if let Some(node) = node {
        let case = own_case(number);
        notes.note(Spot::Node { node, case }, mode);
    }
}

/// The case of the value of a node, where that is a number.
fn own_case(number: u64) -> NodeCase
    ensures { result ≡ (if number == 0 then NodeCase.ValueFalse else NodeCase.ValueTrue) }
{
    if number == 0 {
        NodeCase::ValueFalse
    } else {
        NodeCase::ValueTrue
    }
}

/// Notes the cases of an operator with two operands, if it is counted, where the operands are numbers.
pub(crate) fn note_numbers<N: Notes>(
    node: Option<u32>,
    op: Binary,
    left: u64,
    right: u64,
    mode: Option<u32>,
    notes: &mut N,
)
    ensures { (x y : TermHead) → IsSmall x left → IsSmall y right → Adds N.noted notes.old (in_this mode (node_marks node (two_known op (whole_of (number_at x left)).bits (whole_of (number_at y right)).bits 0 0))) notes.new }
{
    if let Some(node) = node {
        note_truths(node, op, left != 0, right != 0, mode, notes);
    }
}

/// Notes the cases of an operator with two operands by the truths of these.
fn note_truths<N: Notes>(
    node: u32,
    op: Binary,
    left: bool,
    right: bool,
    mode: Option<u32>,
    notes: &mut N,
)
    ensures { Adds N.noted notes.old (in_this mode (sure_marks node op left right)) notes.new }
{
    match op {
        Binary::BitwiseAnd | Binary::LogicalAnd => note_sure_and(node, left, right, mode, notes),
        Binary::BitwiseOr | Binary::LogicalOr => note_sure_or(node, left, right, mode, notes),
        _ => note_sure(node, pair_case(left, right), true, mode, notes),
    }
}

/// The cases of an operator that one false operand decides, by the truths of its operands.
fn note_sure_and<N: Notes>(node: u32, left: bool, right: bool, mode: Option<u32>, notes: &mut N)
    ensures { Adds N.noted notes.old (in_this mode (and_marks node left right)) notes.new }
{
    note_sure(
        node,
        NodeCase::BothTrue,
        both_hold(left, right),
        mode,
        notes,
    );
    note_sure(node, NodeCase::LeftFalse, !left, mode, notes);
    note_sure(node, NodeCase::RightFalse, !right, mode, notes);
}

/// The cases of an operator that one true operand decides, by the truths of its operands.
fn note_sure_or<N: Notes>(node: u32, left: bool, right: bool, mode: Option<u32>, notes: &mut N)
    ensures { Adds N.noted notes.old (in_this mode (or_marks node left right)) notes.new }
{
    note_sure(
        node,
        NodeCase::BothFalse,
        both_hold(!left, !right),
        mode,
        notes,
    );
    note_sure(node, NodeCase::LeftTrue, left, mode, notes);
    note_sure(node, NodeCase::RightTrue, right, mode, notes);
}

/// Whether both of two tests hold.
fn both_hold(left: bool, right: bool) -> bool
    ensures { result ≡ (left && right) }
{
    left && right
}

/// Notes a case if it is that of this visit.
fn note_sure<N: Notes>(node: u32, case: NodeCase, is_it: bool, mode: Option<u32>, notes: &mut N)
    ensures { Adds N.noted notes.old (in_this mode (sure_mark node case is_it)) notes.new }
{
    if is_it {
        notes.note(Spot::Node { node, case }, mode);
    }
}

/// The case of the truths of two operands.
fn pair_case(left: bool, right: bool) -> NodeCase
    ensures { result ≡ case_of left right }
{
    match (left, right) {
        (false, false) => NodeCase::BothFalse,
        (false, true) => NodeCase::FalseTrue,
        (true, false) => NodeCase::TrueFalse,
        (true, true) => NodeCase::BothTrue,
    }
}

/// Notes the cases of an operator with two operands, if it is counted.
pub fn note_two<N: Notes>(
    node: Option<u32>,
    op: Binary,
    left: &Known,
    right: &Known,
    mode: Option<u32>,
    notes: &mut N,
)
    ensures { Adds N.noted notes.old (in_this mode (node_marks node (two_known op left.now.bits right.now.bits left.now.blame right.now.blame))) notes.new }
{
    let Some(node) = node else {
        return;
    };
    match op {
        Binary::BitwiseAnd | Binary::LogicalAnd => note_and(node, left, right, mode, notes),
        Binary::BitwiseOr | Binary::LogicalOr => note_or(node, left, right, mode, notes),
        _ => note_four(node, left, right, mode, notes),
    }
}

/// The cases of an operator that one false operand decides.
fn note_and<N: Notes>(node: u32, left: &Known, right: &Known, mode: Option<u32>, notes: &mut N)
    ensures { Adds N.noted notes.old (in_this mode (case_marks node (and_cases left.now.bits right.now.bits left.now.blame right.now.blame))) notes.new }
{
    let all = both(is_true(left), is_true(right));
    note_case(node, NodeCase::BothTrue, all, mode, notes);
    note_case(node, NodeCase::LeftFalse, is_false(left), mode, notes);
    note_case(node, NodeCase::RightFalse, is_false(right), mode, notes);
}

/// The cases of an operator that one true operand decides.
fn note_or<N: Notes>(node: u32, left: &Known, right: &Known, mode: Option<u32>, notes: &mut N)
    ensures { Adds N.noted notes.old (in_this mode (case_marks node (or_cases left.now.bits right.now.bits left.now.blame right.now.blame))) notes.new }
{
    let none = both(is_false(left), is_false(right));
    note_case(node, NodeCase::BothFalse, none, mode, notes);
    note_case(node, NodeCase::LeftTrue, is_true(left), mode, notes);
    note_case(node, NodeCase::RightTrue, is_true(right), mode, notes);
}

/// The cases of any other operator with two operands.
fn note_four<N: Notes>(node: u32, left: &Known, right: &Known, mode: Option<u32>, notes: &mut N)
    ensures { Adds N.noted notes.old (in_this mode (case_marks node (four_known left.now.bits right.now.bits left.now.blame right.now.blame))) notes.new }
{
    let (low, high) = (is_false(left), is_true(left));
    let (right_low, right_high) = (is_false(right), is_true(right));
    note_case(node, NodeCase::BothFalse, both(low, right_low), mode, notes);
    note_case(
        node,
        NodeCase::FalseTrue,
        both(low, right_high),
        mode,
        notes,
    );
    note_case(
        node,
        NodeCase::TrueFalse,
        both(high, right_low),
        mode,
        notes,
    );
    note_case(
        node,
        NodeCase::BothTrue,
        both(high, right_high),
        mode,
        notes,
    );
}
