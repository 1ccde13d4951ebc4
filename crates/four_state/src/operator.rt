ghost use Rattle.std.specs.Prelude.{◌≡◌};

/// An operator with one operand (IEEE 1364-2001, clause 4.1).
#[derive(Clone, Copy)]
pub enum Unary {
    /// `+`
    Positive,
    /// `-`
    Negative,
    /// `!`
    LogicalNot,
    /// `~`
    BitwiseNot,
    /// `&`
    ReduceAnd,
    /// `~&`
    ReduceNand,
    /// `|`
    ReduceOr,
    /// `~|`
    ReduceNor,
    /// `^`
    ReduceXor,
    /// `~^`
    ReduceXnor,
    /// `^~`
    ReduceNxor,
}

/// An operator with two operands (IEEE 1364-2001, clause 4.1).
#[derive(Clone, Copy)]
pub enum Binary {
    /// `*`
    Multiply,
    /// `/`
    Divide,
    /// `%`
    Modulus,
    /// `+`
    Add,
    /// `-`
    Subtract,
    /// `<<`
    ShiftLeft,
    /// `>>`
    ShiftRight,
    /// `<<<`
    ArithmeticShiftLeft,
    /// `>>>`
    ArithmeticShiftRight,
    /// `<`
    LessThan,
    /// `<=`
    LessOrEqual,
    /// `>`
    GreaterThan,
    /// `>=`
    GreaterOrEqual,
    /// `==`
    Equal,
    /// `!=`
    NotEqual,
    /// `===`
    CaseEqual,
    /// `!==`
    CaseNotEqual,
    /// `&`
    BitwiseAnd,
    /// `^`
    BitwiseXor,
    /// `~^`
    BitwiseXnor,
    /// `^~`
    BitwiseNxor,
    /// `|`
    BitwiseOr,
    /// `&&`
    LogicalAnd,
    /// `||`
    LogicalOr,
}

impl Binary {
    ghost use Rattle.four_state.specs.Operators.{takes_same_shape as takes};

    /// Whether the operands are to have equal widths and signs: not of a shift, `&&` and `||`.
    pub fn takes_same_shape(self) -> bool
        ensures { result ≡ takes self }
    {
        !matches!(
            self,
            Binary::ShiftLeft
                | Binary::ShiftRight
                | Binary::ArithmeticShiftLeft
                | Binary::ArithmeticShiftRight
                | Binary::LogicalAnd
                | Binary::LogicalOr
        )
    }
}

/// How the labels of a case statement match (IEEE 1364-2001, clause 9.5.1).
#[derive(Clone, Copy)]
pub enum CaseKind {
    /// `case`: all four values are compared.
    Exact,
    /// `casez`: a z on either side matches.
    AnyZ,
    /// `casex`: an x or z on either side matches.
    AnyXZ,
}
