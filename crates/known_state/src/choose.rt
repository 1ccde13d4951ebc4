ghost use Rattle.std.specs.Prelude.{◌≡◌, IsTrue, false};
ghost use Rattle.four_state.specs.declared.truth.Truth.{Truth as TruthValue};
ghost use Rattle.four_state.specs.Vector.{Vector};
ghost use Rattle.four_state.specs.Operators.{merge_bit, zip_bits, choice_value, choice_vector};
ghost use Rattle.known_state.specs.Partly.{allows, whole_of, is_whole, with_blame};
ghost use Rattle.known_state.specs.Agreed.{both_moved};
ghost use Rattle.known_state.specs.Choice.{chosen_of};
ghost use Rattle.known_state.specs.Answers.{IsTight, HaveSameShape};
ghost use Rattle.known_state.specs.Maybe.{allows_truth, allow_choice, choice_blame};

use crate::{Known, KnownTruth};
use four_state::{Bit, Four, Truth};

/// `c ? a : b` for a condition that is neither true nor false.
fn merged(a: &Known, b: &Known, blame: u32) -> Known
    requires { HaveSameShape a.now b.now }
    ensures { result ≡ with_blame (both_moved (zip_bits merge_bit) a.now.bits b.now.bits) a.now.signed blame }
{
    let zeros = Four::choose(Truth::Strange, &a.filled(Bit::Zero), &b.filled(Bit::Zero));
    let ones = Four::choose(Truth::Strange, &a.filled(Bit::One), &b.filled(Bit::One));
    Known::whole(zeros).narrowed(ones, blame)
}

/// `c ? a : b` for a condition that is whole.
fn chosen(truth: Truth, a: &Known, b: &Known) -> Known
    requires { HaveSameShape a.now b.now }
    ensures { result ≡ chosen_of truth a.now b.now }
{
    match truth {
        Truth::True => *a,
        Truth::False => *b,
        Truth::Strange => merged(a, b, Known::first_blame(a, b)),
    }
}

impl Known {
    /// `c ? a : b`, of operands with equal widths and signs. Where the condition is not sure the answer is what both
    /// sides and their merge have in common. A bit is sure exactly where it is the same for all that is allowed.
    pub fn choose(c: KnownTruth, a: &Known, b: &Known) -> Known
        requires { HaveSameShape a.now b.now }
        ensures sound { (t : TruthValue) (v w : Vector) → IsTrue (allows_truth c t) → IsTrue (allows a.now v) → IsTrue (allows b.now w) → IsTrue (allows result (choice_vector t v w)) }
        ensures tight { IsTight (allow_choice c a.now b.now) (λ p. choice_value p.0 p.1.bits p.2.bits) result.bits }
        ensures exact { (t : TruthValue) (v w : Vector) → c ≡ KnownTruth.Sure t → a.now ≡ whole_of v → b.now ≡ whole_of w → result ≡ whole_of (choice_vector t v w) }
        ensures blame { is_whole result ≡ false → result.blame ≡ choice_blame c a.now b.now }
    {
        match c {
            KnownTruth::Sure(truth) => chosen(truth, a, b),
            KnownTruth::Unsure(thing) => a.join(b, thing).join(&merged(a, b, thing), thing),
        }
    }
}
