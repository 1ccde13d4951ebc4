//! The operators (IEEE 1364-2001, clause 4.1).

ghost use Rattle.std.specs.Prelude.{◌≡◌, ◌↔◌, [], ◌∷◌, IsTrue, false};
ghost use Rattle.std.specs.Bool.{OnTrue};

use crate::{
    Binary, Bit, CaseKind, Four, Truth, Unary, arithmetic, bitwise, reduce, relation, shift,
};

/// The unsigned vector of one bit.
fn one_bit(bit: Bit) -> Four
    ensures { result ≡ record { bits = bit ∷ []; signed = false } }
{
    Four::fill(1, false, bit)
}

impl Four {
    ghost use Rattle.four_state.specs.Operators.{unary_vector, binary_vector, choice_vector, takes_same_shape, SameShape};

    /// Whether two vectors have equal widths and signs.
    pub fn has_same_shape(&self, other: &Four) -> bool
        ensures { IsTrue result ↔ SameShape self.now other.now }
    {
        self.width() == other.width() && self.is_signed() == other.is_signed()
    }

    /// What an operator with one operand gives.
    pub fn unary(op: Unary, a: &Four) -> Four
        ensures { result ≡ unary_vector op a.now }
    {
        match op {
            Unary::Positive => arithmetic::positive(a),
            Unary::Negative => arithmetic::negative(a),
            Unary::LogicalNot => one_bit(a.truth().to_bit().not()),
            Unary::BitwiseNot => bitwise::not(a),
            Unary::ReduceAnd => one_bit(reduce::and(a)),
            Unary::ReduceNand => one_bit(reduce::and(a).not()),
            Unary::ReduceOr => one_bit(reduce::or(a)),
            Unary::ReduceNor => one_bit(reduce::or(a).not()),
            Unary::ReduceXor => one_bit(reduce::xor(a)),
            Unary::ReduceXnor | Unary::ReduceNxor => one_bit(reduce::xor(a).not()),
        }
    }

    /// What an operator with two operands gives. They have equal widths and signs, except with a shift, `&&` or `||`.
    pub fn binary(op: Binary, a: &Four, b: &Four) -> Four
        requires { OnTrue (takes_same_shape op) (SameShape a.now b.now) }
        ensures { result ≡ binary_vector op a.now b.now }
    {
        match op {
            Binary::Multiply => arithmetic::multiply(a, b),
            Binary::Divide => arithmetic::divide(a, b),
            Binary::Modulus => arithmetic::modulus(a, b),
            Binary::Add => arithmetic::add(a, b),
            Binary::Subtract => arithmetic::subtract(a, b),
            Binary::ShiftLeft | Binary::ArithmeticShiftLeft => shift::left(a, b),
            Binary::ShiftRight => shift::right(Bit::Zero, a, b),
            Binary::ArithmeticShiftRight => shift::right(a.filler(), a, b),
            Binary::LessThan => one_bit(relation::less(a, b)),
            Binary::LessOrEqual => one_bit(relation::less(b, a).not()),
            Binary::GreaterThan => one_bit(relation::less(b, a)),
            Binary::GreaterOrEqual => one_bit(relation::less(a, b).not()),
            Binary::Equal => one_bit(relation::equal(a, b)),
            Binary::NotEqual => one_bit(relation::equal(a, b).not()),
            Binary::CaseEqual => one_bit(Bit::of(Four::label(CaseKind::Exact, a, b))),
            Binary::CaseNotEqual => one_bit(Bit::of(!Four::label(CaseKind::Exact, a, b))),
            Binary::BitwiseAnd => bitwise::and(a, b),
            Binary::BitwiseXor => bitwise::xor(a, b),
            Binary::BitwiseXnor | Binary::BitwiseNxor => bitwise::not(&bitwise::xor(a, b)),
            Binary::BitwiseOr => bitwise::or(a, b),
            Binary::LogicalAnd => one_bit(a.truth().to_bit().and(b.truth().to_bit())),
            Binary::LogicalOr => one_bit(a.truth().to_bit().or(b.truth().to_bit())),
        }
    }

    /// `c ? a : b`, of operands with equal widths and signs.
    pub fn choose(c: Truth, a: &Four, b: &Four) -> Four
        requires { SameShape a.now b.now }
        ensures { result ≡ choice_vector c a.now b.now }
    {
        match c {
            Truth::True => *a,
            Truth::False => *b,
            Truth::Strange => bitwise::merge(a, b),
        }
    }
}
