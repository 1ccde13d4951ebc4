ghost use Rattle.std.specs.Prelude.{◌≡◌};
ghost use Rattle.design_model.specs.Numbered.{node_text};
ghost use Rattle.design_model.specs.View.{term_view};
ghost use Rattle.point_words.specs.Words.{operator_text};
ghost use Rattle.text_points.specs.Operators.{binary_operator, operator_of, unary_operator};

use design_model::{Form, Term};
use four_state::{Binary, Unary};
use point_words::Operator;

/// The operator of a term as a counted node, which is the one whose text is that of the node in the definitions.
#[tactic(auto, using(crate::proofs::OperatorTexts::text_is))]
pub fn operator_of(term: &Term) -> Operator
    ensures operator { result ≡ operator_of (term_view term.now) }
    ensures text { operator_text result ≡ node_text (term_view term.now) }
{
    match &*term.form {
        Form::Unary(op, _) => unary_operator(*op),
        Form::Binary(op, _, _) => binary_operator(*op),
        _ => Operator::Value,
    }
}

/// An operator with one operand.
fn unary_operator(op: Unary) -> Operator
    ensures { result ≡ unary_operator op }
{
    match op {
        Unary::Positive => Operator::Plus,
        Unary::Negative => Operator::Minus,
        Unary::LogicalNot => Operator::LogicalNot,
        Unary::BitwiseNot => Operator::BitwiseNot,
        Unary::ReduceAnd => Operator::And,
        Unary::ReduceNand => Operator::ReduceNand,
        Unary::ReduceOr => Operator::Or,
        Unary::ReduceNor => Operator::ReduceNor,
        Unary::ReduceXor => Operator::Xor,
        Unary::ReduceXnor => Operator::Xnor,
        Unary::ReduceNxor => Operator::Nxor,
    }
}

/// An operator with two operands.
fn binary_operator(op: Binary) -> Operator
    ensures { result ≡ binary_operator op }
{
    match op {
        Binary::Multiply => Operator::Multiply,
        Binary::Divide => Operator::Divide,
        Binary::Modulus => Operator::Modulus,
        Binary::Add => Operator::Plus,
        Binary::Subtract => Operator::Minus,
        Binary::ShiftLeft => Operator::ShiftLeft,
        Binary::ShiftRight => Operator::ShiftRight,
        Binary::ArithmeticShiftLeft => Operator::ArithmeticShiftLeft,
        Binary::ArithmeticShiftRight => Operator::ArithmeticShiftRight,
        Binary::LessThan => Operator::LessThan,
        Binary::LessOrEqual => Operator::LessOrEqual,
        Binary::GreaterThan => Operator::GreaterThan,
        Binary::GreaterOrEqual => Operator::GreaterOrEqual,
        Binary::Equal => Operator::Equal,
        Binary::NotEqual => Operator::NotEqual,
        Binary::CaseEqual => Operator::CaseEqual,
        Binary::CaseNotEqual => Operator::CaseNotEqual,
        Binary::BitwiseAnd => Operator::And,
        Binary::BitwiseXor => Operator::Xor,
        Binary::BitwiseXnor => Operator::Xnor,
        Binary::BitwiseNxor => Operator::Nxor,
        Binary::BitwiseOr => Operator::Or,
        Binary::LogicalAnd => Operator::LogicalAnd,
        Binary::LogicalOr => Operator::LogicalOr,
    }
}
