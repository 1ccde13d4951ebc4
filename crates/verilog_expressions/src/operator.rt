//! Operators by the kinds of their tokens.

ghost use Rattle.std.specs.Prelude.{◌≡◌};
ghost use Rattle.verilog_lexer.specs.TokenView.{lexeme};
ghost use Rattle.grammar_rules.specs.Rule.{next, member, first};
ghost use Rattle.grammar_rules.specs.Grammar.{reads};
ghost use Rattle.verilog_grammar.specs.Expressions.{unary_of_kind, binary_of_kind, operators};
ghost use Rattle.verilog_grammar.specs.Language.{verilog, rank};
ghost use Rattle.verilog_grammar.specs.Verilog.{grammar, begins};
ghost use Rattle.verilog_grammar.specs.declared.level.Level.TheVariants as level_is;
ghost use Rattle.verilog_expressions.specs.Gives.{Gives};

use crate::cursor::Cursor;
use crate::fault::ReadFault;
use four_state::{Binary, Unary};
use verilog_grammar::{Kind, Level};
use verilog_lexer::Token;

/// The operator before an operand.
pub(crate) fn unary_of(kind: Kind) -> Unary
    ensures { result ≡ unary_of_kind kind }
{
    match kind {
        Kind::Minus => Unary::Negative,
        Kind::Not => Unary::LogicalNot,
        Kind::Tilde => Unary::BitwiseNot,
        Kind::And => Unary::ReduceAnd,
        Kind::TildeAnd => Unary::ReduceNand,
        Kind::Or => Unary::ReduceOr,
        Kind::TildeOr => Unary::ReduceNor,
        Kind::Xor => Unary::ReduceXor,
        Kind::TildeXor => Unary::ReduceXnor,
        Kind::XorTilde => Unary::ReduceNxor,
        _ => Unary::Positive,
    }
}

/// The operator between operands.
pub(crate) fn binary_of(kind: Kind) -> Binary
    ensures { result ≡ binary_of_kind kind }
{
    match kind {
        Kind::Star => Binary::Multiply,
        Kind::Slash => Binary::Divide,
        Kind::Percent => Binary::Modulus,
        Kind::Minus => Binary::Subtract,
        Kind::ShiftLeft => Binary::ShiftLeft,
        Kind::ShiftRight => Binary::ShiftRight,
        Kind::ArithmeticShiftLeft => Binary::ArithmeticShiftLeft,
        Kind::ArithmeticShiftRight => Binary::ArithmeticShiftRight,
        Kind::Less => Binary::LessThan,
        Kind::LessOrEqual => Binary::LessOrEqual,
        Kind::Greater => Binary::GreaterThan,
        Kind::GreaterOrEqual => Binary::GreaterOrEqual,
        Kind::EqualEqual => Binary::Equal,
        Kind::NotEqual => Binary::NotEqual,
        Kind::CaseEqual => Binary::CaseEqual,
        Kind::CaseNotEqual => Binary::CaseNotEqual,
        Kind::And => Binary::BitwiseAnd,
        Kind::Xor => Binary::BitwiseXor,
        Kind::TildeXor => Binary::BitwiseXnor,
        Kind::XorTilde => Binary::BitwiseNxor,
        Kind::Or => Binary::BitwiseOr,
        Kind::AndAnd => Binary::LogicalAnd,
        Kind::OrOr => Binary::LogicalOr,
        _ => Binary::Add,
    }
}

/// How many levels are tighter.
pub(crate) fn rank(level: Level) -> u8
    ensures { result ≡ rank level }
{
    match level {
        Level::Unary => 0,
        Level::Product => 1,
        Level::Sum => 2,
        Level::Shift => 3,
        Level::Relation => 4,
        Level::Equality => 5,
        Level::BitwiseAnd => 6,
        Level::BitwiseXor => 7,
        Level::BitwiseOr => 8,
        Level::LogicalAnd => 9,
        Level::LogicalOr => 10,
    }
}

/// Whether an operator of a level is next.
pub(crate) fn sees_operator(cursor: &Cursor<'_, '_>, level: Level) -> bool
    ensures { result ≡ member (next verilog cursor.now) (first verilog begins (operators level)) }
{
    match level {
        Level::Unary => sees_unary(cursor),
        Level::Product => {
            cursor.sees(Kind::Star) || cursor.sees(Kind::Slash) || cursor.sees(Kind::Percent)
        }
        Level::Sum => cursor.sees(Kind::Plus) || cursor.sees(Kind::Minus),
        Level::Shift => sees_shift(cursor),
        Level::Relation => sees_relation(cursor),
        Level::Equality => sees_equality(cursor),
        Level::BitwiseAnd => cursor.sees(Kind::And),
        Level::BitwiseXor => sees_xor(cursor),
        Level::BitwiseOr => cursor.sees(Kind::Or),
        Level::LogicalAnd => cursor.sees(Kind::AndAnd),
        Level::LogicalOr => cursor.sees(Kind::OrOr),
    }
}

fn sees_unary(cursor: &Cursor<'_, '_>) -> bool
    ensures { result ≡ member (next verilog cursor.now) (first verilog begins (operators level_is.Unary)) }
{
    cursor.sees(Kind::Plus)
        || cursor.sees(Kind::Minus)
        || cursor.sees(Kind::Not)
        || cursor.sees(Kind::Tilde)
        || cursor.sees(Kind::And)
        || cursor.sees(Kind::TildeAnd)
        || cursor.sees(Kind::Or)
        || cursor.sees(Kind::TildeOr)
        || cursor.sees(Kind::Xor)
        || cursor.sees(Kind::TildeXor)
        || cursor.sees(Kind::XorTilde)
}

fn sees_shift(cursor: &Cursor<'_, '_>) -> bool
    ensures { result ≡ member (next verilog cursor.now) (first verilog begins (operators level_is.Shift)) }
{
    cursor.sees(Kind::ShiftLeft)
        || cursor.sees(Kind::ShiftRight)
        || cursor.sees(Kind::ArithmeticShiftLeft)
        || cursor.sees(Kind::ArithmeticShiftRight)
}

fn sees_relation(cursor: &Cursor<'_, '_>) -> bool
    ensures { result ≡ member (next verilog cursor.now) (first verilog begins (operators level_is.Relation)) }
{
    cursor.sees(Kind::Less)
        || cursor.sees(Kind::LessOrEqual)
        || cursor.sees(Kind::Greater)
        || cursor.sees(Kind::GreaterOrEqual)
}

fn sees_equality(cursor: &Cursor<'_, '_>) -> bool
    ensures { result ≡ member (next verilog cursor.now) (first verilog begins (operators level_is.Equality)) }
{
    cursor.sees(Kind::EqualEqual)
        || cursor.sees(Kind::NotEqual)
        || cursor.sees(Kind::CaseEqual)
        || cursor.sees(Kind::CaseNotEqual)
}

fn sees_xor(cursor: &Cursor<'_, '_>) -> bool
    ensures { result ≡ member (next verilog cursor.now) (first verilog begins (operators level_is.BitwiseXor)) }
{
    cursor.sees(Kind::Xor) || cursor.sees(Kind::TildeXor) || cursor.sees(Kind::XorTilde)
}

/// Takes an operator of a level.
#[tactic(auto, unfolding(grammar_rules::specs::Rule::take_one))]
pub(crate) fn take_operator<'a>(
    cursor: &mut Cursor<'_, 'a>,
    level: Level,
) -> Result<Token<'a>, ReadFault>
    ensures { Gives lexeme (reads verilog grammar 0 (operators level) cursor.old) result cursor.new }
{
    if !sees_operator(cursor, level) {
        return Err(cursor.refuse());
    }
    cursor.take_next()
}
