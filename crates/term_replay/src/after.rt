//! A term after its operands are evaluated.

ghost use Rattle.std.specs.Prelude.{◌≡◌, ◌==◌, IfSome, ℕ, Option, if◌then◌else◌};
ghost use Rattle.std.specs.Bool.{OnTrue};
ghost use Rattle.four_state.specs.Operators.{takes_same_shape};
ghost use Rattle.known_state.specs.Answers.{HaveSameShape};
ghost use Rattle.known_state.specs.Partly.{whole_of};
ghost use Rattle.design_model.specs.Tree as t;
ghost use Rattle.body_replay.specs.Replay.{node_marks, two_known};
ghost use Rattle.term_replay.specs.Numbers.{IsAtOnce};
ghost use Rattle.term_replay.specs.Noted.{Adds, in_this, own_cases};
ghost use Rattle.term_replay.specs.Plain.{IsSmall, head_in, held as held_value, number_at};
ghost use Rattle.term_replay.specs.Stands.{IsHead, Scene, Stands, first_after, head_of};

use crate::cases::{note_number, note_numbers, note_own, note_two};
use crate::number_operators::{combined, tested};
use crate::operate::{binary, choice, unary};
use crate::plain::{held, keep, settle_vector, vector};
use crate::{Notes, TermHead};
use design_model::Term;
use four_state::{Binary, Four, Unary};
use known_state::Known;

/// Notes the cases of a term by its value, if it is a counted node.
pub(crate) fn note_value<N: Notes>(
    number: Option<u64>,
    term: &Term,
    mode: Option<u32>,
    notes: &mut N,
    place: &Known,
)
    requires { IfSome number (IsSmall (head_in term.now)) }
    ensures { Adds N.noted notes.old (in_this mode (node_marks term.now.node (own_cases (held_value (head_in term.now) number place.now).bits (held_value (head_in term.now) number place.now).blame))) notes.new }
{
    match number {
        Some(number) => note_number(term.node, number, mode, notes),
        None => note_own(term.node, place, mode, notes),
    }
}

/// An operator with one operand, which is evaluated.
pub(crate) fn after_operand(
    op: Unary,
    number: Option<u64>,
    operand: &Term,
    term: &Term,
    place: &mut Known,
) -> Option<u64>
    requires head { IsHead (head_in term.now) }
    requires operand { IsHead (head_in operand.now) }
    requires small { IfSome number (IsSmall (head_in operand.now)) }
    ensures value { (v : Scene) (first : Option ℕ) (x : t.Term) → Stands v first x (held_value (head_in operand.now) number place.old) → Stands v first (t.unary (head_of (head_in term.now)) op x) (held_value (head_in term.now) result place.new) }
    ensures small { IfSome result (IsSmall (head_in term.now)) }
{
    match number {
        Some(number) => {
            let value = Four::unary(op, &vector(number, operand));
            settle_vector(&value, term, place)
        }
        None => after_placed(op, term, place),
    }
}

/// An operator with one operand, which is in the place.
#[inline(never)]
fn after_placed(op: Unary, term: &Term, place: &mut Known) -> Option<u64>
    requires { IsHead (head_in term.now) }
    ensures value { (v : Scene) (first : Option ℕ) (x : t.Term) → Stands v first x place.old → Stands v first (t.unary (head_of (head_in term.now)) op x) (held_value (head_in term.now) result place.new) }
    ensures small { IfSome result (IsSmall (head_in term.now)) }
{
    let value = unary(op, place, TermHead::of(term));
    keep(&value, term, place)
}

/// An operator with two operands, which are evaluated: the left one is in `other` where it is no number, and the right one in
/// the place. Its cases are noted.
pub(crate) fn after_both<N: Notes>(
    op: Binary,
    one: Option<u64>,
    two: Option<u64>,
    left: &Term,
    right: &Term,
    other: &Known,
    term: &Term,
    mode: Option<u32>,
    notes: &mut N,
    place: &mut Known,
) -> Option<u64>
    requires head { IsHead (head_in term.now) }
    requires left { IsHead (head_in left.now) }
    requires right { IsHead (head_in right.now) }
    requires one { IfSome one (IsSmall (head_in left.now)) }
    requires two { IfSome two (IsSmall (head_in right.now)) }
    requires operands { OnTrue (takes_same_shape op) (HaveSameShape (held_value (head_in left.now) one other.now) (held_value (head_in right.now) two place.old)) }
    ensures value { (v : Scene) (first : Option ℕ) (x y : t.Term) → Stands v first x (held_value (head_in left.now) one other.now) → Stands v (first_after v first x) y (held_value (head_in right.now) two place.old) → Stands v first (t.binary (head_of (head_in term.now)) op x y) (held_value (head_in term.now) result place.new) }
    ensures small { IfSome result (IsSmall (head_in term.now)) }
    ensures notes { Adds N.noted notes.old (in_this mode (node_marks term.now.node (two_known op (held_value (head_in left.now) one other.now).bits (held_value (head_in right.now) two place.old).bits (held_value (head_in left.now) one other.now).blame (held_value (head_in right.now) two place.old).blame))) notes.new }
{
    match (one, two) {
        (Some(one), Some(two)) => {
            note_numbers(term.node, op, one, two, mode, notes);
            after_numbers(op, one, two, left, right, term, place)
        }
        _ => {
            let one = held(one, left, other);
            let two = held(two, right, place);
            note_two(term.node, op, &one, &two, mode, notes);
            after_vectors(op, &one, &two, term, place)
        }
    }
}

/// An operator with two operands, which are numbers.
fn after_numbers(
    op: Binary,
    one: u64,
    two: u64,
    left: &Term,
    right: &Term,
    term: &Term,
    place: &mut Known,
) -> Option<u64>
    requires head { IsHead (head_in term.now) }
    requires left { IsHead (head_in left.now) }
    requires right { IsHead (head_in right.now) }
    requires one { IsSmall (head_in left.now) one }
    requires two { IsSmall (head_in right.now) two }
    requires operands { OnTrue (takes_same_shape op) (HaveSameShape (whole_of (number_at (head_in left.now) one)) (whole_of (number_at (head_in right.now) two))) }
    ensures value { (v : Scene) (first : Option ℕ) (x y : t.Term) → Stands v first x (whole_of (number_at (head_in left.now) one)) → Stands v (first_after v first x) y (whole_of (number_at (head_in right.now) two)) → Stands v first (t.binary (head_of (head_in term.now)) op x y) (held_value (head_in term.now) result place.new) }
    ensures small { IfSome result (IsSmall (head_in term.now)) }
{
    match at_once(op, one, two, left, right, term) {
        Some(number) => Some(number),
        None => after_shapes(op, one, two, left, right, term, place),
    }
}

/// The number of an operator with two operands, which are numbers, where it is one of those on numbers, and its term has the
/// width and the sign that it gives.
fn at_once(op: Binary, one: u64, two: u64, left: &Term, right: &Term, term: &Term) -> Option<u64>
    requires head { IsHead (head_in term.now) }
    requires left { IsHead (head_in left.now) }
    requires one { IsSmall (head_in left.now) one }
    requires two { IsSmall (head_in right.now) two }
    ensures { IfSome result (IsAtOnce op (head_in left.now) (head_in right.now) (head_in term.now) one two) }
{
    if left.width != right.width {
        return None;
    }
    if term.width == 1 && !term.signed {
        if let Some(answer) = tested(op, one, two, left.signed) {
            return Some(answer);
        }
    }
    if left.width == term.width && left.signed == term.signed {
        return combined(op, one, two, left.width);
    }
    None
}

/// The same by the operator on vectors.
#[inline(never)]
fn after_shapes(
    op: Binary,
    one: u64,
    two: u64,
    left: &Term,
    right: &Term,
    term: &Term,
    place: &mut Known,
) -> Option<u64>
    requires head { IsHead (head_in term.now) }
    requires left { IsHead (head_in left.now) }
    requires right { IsHead (head_in right.now) }
    requires one { IsSmall (head_in left.now) one }
    requires two { IsSmall (head_in right.now) two }
    requires operands { OnTrue (takes_same_shape op) (HaveSameShape (whole_of (number_at (head_in left.now) one)) (whole_of (number_at (head_in right.now) two))) }
    ensures value { (v : Scene) (first : Option ℕ) (x y : t.Term) → Stands v first x (whole_of (number_at (head_in left.now) one)) → Stands v (first_after v first x) y (whole_of (number_at (head_in right.now) two)) → Stands v first (t.binary (head_of (head_in term.now)) op x y) (held_value (head_in term.now) result place.new) }
    ensures small { IfSome result (IsSmall (head_in term.now)) }
{
    let value = Four::binary(op, &vector(one, left), &vector(two, right));
    settle_vector(&value, term, place)
}

/// An operator with two operands, of which not both are numbers.
#[inline(never)]
fn after_vectors(
    op: Binary,
    one: &Known,
    two: &Known,
    term: &Term,
    place: &mut Known,
) -> Option<u64>
    requires head { IsHead (head_in term.now) }
    requires operands { OnTrue (takes_same_shape op) (HaveSameShape one.now two.now) }
    ensures value { (v : Scene) (first : Option ℕ) (x y : t.Term) → Stands v first x one.now → Stands v (first_after v first x) y two.now → Stands v first (t.binary (head_of (head_in term.now)) op x y) (held_value (head_in term.now) result place.new) }
    ensures small { IfSome result (IsSmall (head_in term.now)) }
{
    let value = binary(op, one, two, TermHead::of(term));
    keep(&value, term, place)
}

/// A choice of which all three operands are evaluated: the test is in `tested` where it is no number, the first side in
/// `other`, and the second one in the place. Both sides have the width and the sign of the choice.
pub(crate) fn after_sides(
    by: Option<u64>,
    one: Option<u64>,
    two: Option<u64>,
    test: &Term,
    tested: &Known,
    other: &Known,
    term: &Term,
    place: &mut Known,
) -> Option<u64>
    requires head { IsHead (head_in term.now) }
    requires test { IsHead (head_in test.now) }
    requires by { IfSome by (IsSmall (head_in test.now)) }
    requires one { IfSome one (IsSmall (head_in term.now)) }
    requires two { IfSome two (IsSmall (head_in term.now)) }
    requires sides { HaveSameShape (held_value (head_in term.now) one other.now) (held_value (head_in term.now) two place.old) }
    ensures value { (v : Scene) (first : Option ℕ) (c x y : t.Term) → Stands v first c (held_value (head_in test.now) by tested.now) → Stands v (first_after v first c) x (held_value (head_in term.now) one other.now) → Stands v (first_after v (first_after v first c) x) y (held_value (head_in term.now) two place.old) → Stands v first (t.choice (head_of (head_in term.now)) c x y) (held_value (head_in term.now) result place.new) }
    ensures small { IfSome result (IsSmall (head_in term.now)) }
{
    match (by, one, two) {
        (Some(by), Some(one), Some(two)) => Some(side(by, one, two)),
        _ => {
            let by = held(by, test, tested);
            let one = held(one, term, other);
            let two = held(two, term, place);
            after_choice(&by, &one, &two, term, place)
        }
    }
}

/// The side of a choice that its test chooses.
fn side(by: u64, one: u64, two: u64) -> u64
    ensures { result ≡ (if by == 0 then two else one) }
{
    if by == 0 { two } else { one }
}

/// A choice of which not all three operands are numbers.
#[inline(never)]
fn after_choice(
    test: &Known,
    yes: &Known,
    no: &Known,
    term: &Term,
    place: &mut Known,
) -> Option<u64>
    requires head { IsHead (head_in term.now) }
    requires sides { HaveSameShape yes.now no.now }
    ensures value { (v : Scene) (first : Option ℕ) (c x y : t.Term) → Stands v first c test.now → Stands v (first_after v first c) x yes.now → Stands v (first_after v (first_after v first c) x) y no.now → Stands v first (t.choice (head_of (head_in term.now)) c x y) (held_value (head_in term.now) result place.new) }
    ensures small { IfSome result (IsSmall (head_in term.now)) }
{
    let value = choice(test, yes, no, TermHead::of(term));
    keep(&value, term, place)
}
