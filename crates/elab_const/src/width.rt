ghost use Rattle.std.specs.Prelude.{◌≡◌};
ghost use Rattle.elab_const.specs.Scope.{IsWidth};
ghost use Rattle.elab_const.specs.Meaning as of;
ghost use Rattle.elab_const.specs.Meaning.{IsShape};
ghost use Rattle.design_model.specs.Shape as operator;

use crate::Entry;
use four_state::{Binary, Four, Unary};

/// The width of an expression in bits, from 1 to 128, and whether it is signed (IEEE 1364-2001, 4.4 and 4.5).
#[derive(Clone, Copy)]
pub struct Shape {
    /// The number of bits.
    pub width: u8,
    /// Whether it is signed.
    pub signed: bool,
}

impl Shape {
    /// One bit without a sign: of comparisons, reductions, logic and bits (IEEE 1364-2001, 4.4 and 4.5).
    pub fn one_bit() -> Shape
        ensures { result ≡ of.one_bit }
    {
        Shape {
            width: 1,
            signed: false,
        }
    }

    /// Of a number.
    pub(crate) fn of_number(number: &Four) -> Shape
        ensures value { result ≡ of.vector_shape number.now }
        ensures within { IsWidth result.width }
    {
        Shape {
            width: number.width(),
            signed: number.is_signed(),
        }
    }

    /// The greater width of both, and a sign where both have one: of two operands that a context joins
    /// (IEEE 1364-2001, 4.4 for the width, 4.5 for the sign).
    pub fn common(self, other: Shape) -> Shape
        ensures value { result ≡ of.common_shape self other }
        ensures within { IsShape self → IsShape other → IsShape result }
    {
        Shape {
            width: self.width.max(other.width),
            signed: self.signed && other.signed,
        }
    }

    /// Of what an operator gives to an operand of this shape.
    pub(crate) fn unary(self, op: Unary) -> Shape
        ensures { result ≡ of.unary_shape op self }
    {
        if takes_context(op) {
            self
        } else {
            Shape::one_bit()
        }
    }

    /// Of what an operator gives to a left operand of this shape and a right one of the other.
    pub(crate) fn binary(self, op: Binary, other: Shape) -> Shape
        ensures { result ≡ of.binary_shape op self other }
    {
        match Operands::of(op) {
            Operands::Wide => self.common(other),
            Operands::Shift => self,
            Operands::Logic | Operands::Compared => Shape::one_bit(),
        }
    }
}

/// How an operator takes two operands (IEEE 1364-2001, 4.4 and 4.5): which of them have the width and sign of the
/// context, and which are taken in a shape of their own.
#[derive(Clone, Copy)]
pub enum Operands {
    /// Arithmetic and bitwise operators: both in the context.
    Wide,
    /// Shifts: the left one in the context, the right one alone.
    Shift,
    /// Logical operators: both alone.
    Logic,
    /// Comparisons: both in their common shape.
    Compared,
}

/// Whether an operator takes its operand in the width and sign of the context, as `+`, `-` and `~` do, and not alone, as
/// reductions and `!` do (IEEE 1364-2001, 4.4 and 4.5).
pub fn takes_context(op: Unary) -> bool
    ensures { result ≡ operator.is_wide_unary op }
{
    matches!(op, Unary::Positive | Unary::Negative | Unary::BitwiseNot)
}

impl Operands {
    /// How this operator takes its operands.
    pub fn of(op: Binary) -> Operands
        ensures { result ≡ of.operands_of op }
    {
        match op {
            Binary::Multiply
            | Binary::Divide
            | Binary::Modulus
            | Binary::Add
            | Binary::Subtract
            | Binary::BitwiseAnd
            | Binary::BitwiseXor
            | Binary::BitwiseXnor
            | Binary::BitwiseNxor
            | Binary::BitwiseOr => Operands::Wide,
            Binary::ShiftLeft
            | Binary::ShiftRight
            | Binary::ArithmeticShiftLeft
            | Binary::ArithmeticShiftRight => Operands::Shift,
            Binary::LogicalAnd | Binary::LogicalOr => Operands::Logic,
            Binary::LessThan
            | Binary::LessOrEqual
            | Binary::GreaterThan
            | Binary::GreaterOrEqual
            | Binary::Equal
            | Binary::NotEqual
            | Binary::CaseEqual
            | Binary::CaseNotEqual => Operands::Compared,
        }
    }
}
