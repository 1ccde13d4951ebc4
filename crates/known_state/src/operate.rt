//! The operators (IEEE 1364-2001, clause 4.1): what is the same for all values of the bits that are not sure.

ghost use Rattle.std.specs.Prelude.{◌≡◌, ◌↔◌, ◌&&◌, not, true, false, length, replicate, None, IsTrue};
ghost use Rattle.std.specs.Bool.{OnTrue};
ghost use Rattle.four_state.specs.Vector.{Vector, all_known};
ghost use Rattle.four_state.specs.Operators.{unary_value, unary_vector, unary_keeps_sign, binary_value, binary_vector, binary_keeps_sign, takes_same_shape, choice_value, choice_vector};
ghost use Rattle.known_state.specs.Partly.{allows, filled, whole_of, is_whole, blame_of, with_blame};
ghost use Rattle.known_state.specs.Agreed.{agreed as agreed_bits, both_agreed as both_agreed_bits};
ghost use Rattle.known_state.specs.Answers.{IsTight, HaveSameShape, allow_both, is_shift as is_shift_operator};
ghost use Rattle.known_state.specs.Join.{first_blame};

use crate::Known;
use four_state::{Binary, Bit, Four, Unary};

/// What an operator with one operand gives for all 0, all 1 and all x at the bits that are not sure.
fn agreed(op: Unary, a: &Known) -> Known
    ensures { result ≡ with_blame (agreed_bits (unary_value op) a.now.bits) (unary_keeps_sign op && a.now.signed) a.now.blame }
{
    if a.is_whole() {
        return Known::whole(Four::unary(op, &a.value()));
    }
    Known::whole(Four::unary(op, &a.filled(Bit::Zero)))
        .narrowed(Four::unary(op, &a.filled(Bit::One)), a.blame())
        .narrowed(Four::unary(op, &a.filled(Bit::X)), a.blame())
}

/// What an operator with two operands gives for a few values of the bits that are not sure: all 0, all 1, 0 on the
/// left and 1 on the right, all x, and for each operand the bits of the other.
fn both_agreed(op: Binary, a: &Known, b: &Known) -> Known
    requires { OnTrue (takes_same_shape op) (HaveSameShape a.now b.now) }
    ensures { result ≡ with_blame (both_agreed_bits (binary_value op a.now.signed) a.now.bits b.now.bits) (binary_keeps_sign op && a.now.signed) (first_blame a.now b.now) }
{
    if a.is_whole() && b.is_whole() {
        return Known::whole(Four::binary(op, &a.value(), &b.value()));
    }
    let blame = Known::first_blame(a, b);
    let low = a.filled(Bit::Zero);
    let (zeros, ones) = (b.filled(Bit::Zero), b.filled(Bit::One));
    Known::whole(Four::binary(op, &low, &zeros))
        .narrowed(Four::binary(op, &a.filled(Bit::One), &ones), blame)
        .narrowed(Four::binary(op, &low, &ones), blame)
        .narrowed(
            Four::binary(op, &a.filled(Bit::X), &b.filled(Bit::X)),
            blame,
        )
        .narrowed(
            Four::binary(op, &a.filled_from(&zeros), &b.filled_from(&low)),
            blame,
        )
}

/// Whether an operator is a shift by an amount of which some bit is not sure, and none is sure to be x or z.
fn has_unsure_amount(op: Binary, amount: &Known) -> bool
    ensures { result ≡ (is_shift_operator op && (not (is_whole amount.now) && all_known (filled Bit.Zero amount.now.bits))) }
{
    let is_shift = matches!(
        op,
        Binary::ShiftLeft
            | Binary::ShiftRight
            | Binary::ArithmeticShiftLeft
            | Binary::ArithmeticShiftRight
    );
    is_shift && !amount.is_whole() && amount.value().is_known()
}

impl Known {
    /// Whether two vectors have equal widths and signs.
    pub fn has_same_shape(&self, other: &Known) -> bool
        ensures { IsTrue result ↔ HaveSameShape self.now other.now }
    {
        self.width() == other.width() && self.is_signed() == other.is_signed()
    }

    /// What an operator with one operand gives. A bit is sure exactly where it is the same for all allowed values.
    pub fn unary(op: Unary, a: &Known) -> Known
        ensures sound { (v : Vector) → IsTrue (allows a.now v) → IsTrue (allows result (unary_vector op v)) }
        ensures tight { IsTight (allows a.now) (λ v. unary_value op v.bits) result.bits }
        ensures exact { (v : Vector) → a.now ≡ whole_of v → result ≡ whole_of (unary_vector op v) }
        ensures blame { is_whole result ≡ false → result.blame ≡ a.now.blame }
    {
        agreed(op, a)
    }

    /// What an operator with two operands gives. They have equal widths and signs, except with a shift, `&&` or `||`.
    /// A bit is sure exactly where it is the same for all allowed values; of a shift by an amount that is not sure, and
    /// of which no bit is sure to be x or z, none is.
    pub fn binary(op: Binary, a: &Known, b: &Known) -> Known
        requires { OnTrue (takes_same_shape op) (HaveSameShape a.now b.now) }
        ensures sound { (v w : Vector) → IsTrue (allows a.now v) → IsTrue (allows b.now w) → IsTrue (allows result (binary_vector op v w)) }
        ensures unsure_shift { (is_shift_operator op && (not (is_whole b.now) && all_known (filled Bit.Zero b.now.bits))) ≡ true → result.bits ≡ replicate (length a.now.bits) None }
        ensures tight { (is_shift_operator op && (not (is_whole b.now) && all_known (filled Bit.Zero b.now.bits))) ≡ false → IsTight (allow_both a.now b.now) (λ p. binary_value op p.0.signed p.0.bits p.1.bits) result.bits }
        ensures exact { (v w : Vector) → a.now ≡ whole_of v → b.now ≡ whole_of w → result ≡ whole_of (binary_vector op v w) }
        ensures blame { is_whole result ≡ false → result.blame ≡ first_blame a.now b.now }
    {
        if has_unsure_amount(op, b) {
            Known::unknown(a.width(), a.is_signed(), Known::first_blame(a, b))
        } else {
            both_agreed(op, a, b)
        }
    }
}
