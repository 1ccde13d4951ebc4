ghost use Rattle.std.specs.Prelude.{◌≡◌};
ghost use Rattle.point_words.specs.Words.{operator_text, operator_of, can_have, is_unary, is_and, is_or, is_plain};

use crate::NodeCase;

/// The operator of a counted node as it is written (IEEE 1364-2001 clause 4.1), or the value of a condition.
#[derive(Clone, Copy)]
pub enum Operator {
    /// `value`: the condition of an `if` or a `?:` that is no operator.
    Value,
    /// `!`
    LogicalNot,
    /// `~`
    BitwiseNot,
    /// `~&`
    ReduceNand,
    /// `~|`
    ReduceNor,
    /// `&`. With one operand or two.
    And,
    /// `|`. With one operand or two.
    Or,
    /// `&&`
    LogicalAnd,
    /// `||`
    LogicalOr,
    /// `+`. With one operand or two.
    Plus,
    /// `-`. With one operand or two.
    Minus,
    /// `^`. With one operand or two.
    Xor,
    /// `~^`. With one operand or two.
    Xnor,
    /// `^~`. With one operand or two.
    Nxor,
    /// `*`
    Multiply,
    /// `/`
    Divide,
    /// `%`
    Modulus,
    /// `<<`
    ShiftLeft,
    /// `>>`
    ShiftRight,
    /// `<<<`
    ArithmeticShiftLeft,
    /// `>>>`
    ArithmeticShiftRight,
    /// `<`
    LessThan,
    /// `<=`
    LessOrEqual,
    /// `>`
    GreaterThan,
    /// `>=`
    GreaterOrEqual,
    /// `==`
    Equal,
    /// `!=`
    NotEqual,
    /// `===`
    CaseEqual,
    /// `!==`
    CaseNotEqual,
}

impl Operator {
    /// All operators.
    #[rattlefmt::skip]
    pub const ALL: [Operator; 29] = [
        Operator::Value, Operator::LogicalNot, Operator::BitwiseNot, Operator::ReduceNand,
        Operator::ReduceNor, Operator::And, Operator::Or, Operator::LogicalAnd, Operator::LogicalOr,
        Operator::Plus, Operator::Minus, Operator::Xor, Operator::Xnor, Operator::Nxor,
        Operator::Multiply, Operator::Divide, Operator::Modulus, Operator::ShiftLeft,
        Operator::ShiftRight, Operator::ArithmeticShiftLeft, Operator::ArithmeticShiftRight,
        Operator::LessThan, Operator::LessOrEqual, Operator::GreaterThan, Operator::GreaterOrEqual,
        Operator::Equal, Operator::NotEqual, Operator::CaseEqual, Operator::CaseNotEqual,
    ];

    /// The field of the database text.
    pub fn text(self) -> &'static str
        ensures { result.now ≡ operator_text self }
    {
        match self {
            Operator::Value => "value",
            Operator::LogicalNot => "!",
            Operator::BitwiseNot => "~",
            Operator::ReduceNand => "~&",
            Operator::ReduceNor => "~|",
            Operator::And => "&",
            Operator::Or => "|",
            Operator::LogicalAnd => "&&",
            Operator::LogicalOr => "||",
            Operator::Plus => "+",
            Operator::Minus => "-",
            Operator::Xor => "^",
            Operator::Xnor => "~^",
            Operator::Nxor => "^~",
            Operator::Multiply => "*",
            Operator::Divide => "/",
            Operator::Modulus => "%",
            Operator::ShiftLeft => "<<",
            Operator::ShiftRight => ">>",
            Operator::ArithmeticShiftLeft => "<<<",
            Operator::ArithmeticShiftRight => ">>>",
            Operator::LessThan => "<",
            Operator::LessOrEqual => "<=",
            Operator::GreaterThan => ">",
            Operator::GreaterOrEqual => ">=",
            Operator::Equal => "==",
            Operator::NotEqual => "!=",
            Operator::CaseEqual => "===",
            Operator::CaseNotEqual => "!==",
        }
    }

    /// The operator that a field of the database text names.
    #[tactic(auto, unfolding(crate::specs::Words::operator_of))]
    pub fn of_text(text: &[u8]) -> Option<Self>
        ensures { result ≡ operator_of text.now }
    {
        for operator in &Operator::ALL {
            if operator.text().as_bytes() == text {
                return Some(*operator);
            }
        }
        None
    }

    /// Whether a node of the operator has the case: a node with one operand goes by its own truth, one with
    /// two operands by theirs, where a single operand decides `&`, `&&`, `|` and `||`.
    pub fn can_have(self, case: NodeCase) -> bool
        ensures { result ≡ can_have self case }
    {
        match case {
            NodeCase::ValueFalse | NodeCase::ValueTrue => self.is_unary(),
            NodeCase::LeftFalse | NodeCase::RightFalse => self.is_and(),
            NodeCase::LeftTrue | NodeCase::RightTrue => self.is_or(),
            NodeCase::BothFalse => self.is_or() || self.is_plain(),
            NodeCase::FalseTrue | NodeCase::TrueFalse => self.is_plain(),
            NodeCase::BothTrue => self.is_and() || self.is_plain(),
        }
    }

    /// Whether it takes one operand, or is the value of a condition.
    fn is_unary(self) -> bool
        ensures { result ≡ is_unary self }
    {
        matches!(
            self,
            Operator::Value
                | Operator::LogicalNot
                | Operator::BitwiseNot
                | Operator::ReduceNand
                | Operator::ReduceNor
                | Operator::And
                | Operator::Or
                | Operator::Plus
                | Operator::Minus
                | Operator::Xor
                | Operator::Xnor
                | Operator::Nxor
        )
    }

    /// Whether one false operand decides it.
    fn is_and(self) -> bool
        ensures { result ≡ is_and self }
    {
        matches!(self, Operator::And | Operator::LogicalAnd)
    }

    /// Whether one true operand decides it.
    fn is_or(self) -> bool
        ensures { result ≡ is_or self }
    {
        matches!(self, Operator::Or | Operator::LogicalOr)
    }

    /// Whether it takes two operands, neither of which decides it alone.
    fn is_plain(self) -> bool
        ensures { result ≡ is_plain self }
    {
        !matches!(
            self,
            Operator::Value
                | Operator::LogicalNot
                | Operator::BitwiseNot
                | Operator::ReduceNand
                | Operator::ReduceNor
                | Operator::And
                | Operator::Or
                | Operator::LogicalAnd
                | Operator::LogicalOr
        )
    }
}
