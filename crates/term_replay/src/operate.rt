//! The operators and the choice (IEEE 1364-2001, clause 4.1).

ghost use Rattle.std.specs.Prelude.{◌≡◌, ℕ, Option, length};
ghost use Rattle.std.specs.Bool.{OnTrue};
ghost use Rattle.four_state.specs.Operators.{takes_same_shape};
ghost use Rattle.known_state.specs.Answers.{HaveSameShape};
ghost use Rattle.design_model.specs.Tree as t;
ghost use Rattle.term_replay.specs.Stands.{Scene, first_after, IsHead, Stands, head_of};

use crate::TermHead;
use crate::fit::fitted;
use four_state::{Binary, Unary};
use known_state::Known;

/// The value of an operator with one operand.
pub fn unary(op: Unary, operand: &Known, head: TermHead) -> Known
    requires { IsHead head }
    ensures width { length result.bits ≡ head.width }
    ensures sign { result.signed ≡ head.signed }
    ensures value { (v : Scene) (first : Option ℕ) (x : t.Term) → Stands v first x operand.now → Stands v first (t.unary (head_of head) op x) result }
{
    fitted(&Known::unary(op, operand), head)
}

/// The value of an operator with two operands.
pub fn binary(op: Binary, left: &Known, right: &Known, head: TermHead) -> Known
    requires head { IsHead head }
    requires operands { OnTrue (takes_same_shape op) (HaveSameShape left.now right.now) }
    ensures width { length result.bits ≡ head.width }
    ensures sign { result.signed ≡ head.signed }
    ensures value { (v : Scene) (first : Option ℕ) (x y : t.Term) → Stands v first x left.now → Stands v (first_after v first x) y right.now → Stands v first (t.binary (head_of head) op x y) result }
{
    fitted(&Known::binary(op, left, right), head)
}

/// The value of `test ? yes : no`.
pub fn choice(test: &Known, yes: &Known, no: &Known, head: TermHead) -> Known
    requires head { IsHead head }
    requires sides { HaveSameShape yes.now no.now }
    ensures width { length result.bits ≡ head.width }
    ensures sign { result.signed ≡ head.signed }
    ensures value { (v : Scene) (first : Option ℕ) (c x y : t.Term) → Stands v first c test.now → Stands v (first_after v first c) x yes.now → Stands v (first_after v (first_after v first c) x) y no.now → Stands v first (t.choice (head_of head) c x y) result }
{
    fitted(&Known::choose(test.truth(), yes, no), head)
}
