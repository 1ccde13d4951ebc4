ghost use Rattle.std.specs.Prelude.{◌≡◌};

/// What an expression may be without parentheses round it, from the tightest (IEEE 1364-2001 clause 4.1.2).
#[derive(Clone, Copy)]
pub enum Level {
    /// An operand with the operators before it.
    Unary,
    Product,
    Sum,
    Shift,
    Relation,
    Equality,
    BitwiseAnd,
    BitwiseXor,
    BitwiseOr,
    LogicalAnd,
    LogicalOr,
}

impl Level {
    ghost use Rattle.verilog_grammar.specs.Language.{tighter, looser};

    /// The level of the operands, its own for the tightest.
    pub fn tighter(self) -> Level
        ensures { result ≡ tighter self }
    {
        match self {
            Level::Unary | Level::Product => Level::Unary,
            Level::Sum => Level::Product,
            Level::Shift => Level::Sum,
            Level::Relation => Level::Shift,
            Level::Equality => Level::Relation,
            Level::BitwiseAnd => Level::Equality,
            Level::BitwiseXor => Level::BitwiseAnd,
            Level::BitwiseOr => Level::BitwiseXor,
            Level::LogicalAnd => Level::BitwiseOr,
            Level::LogicalOr => Level::LogicalAnd,
        }
    }

    /// The next looser level, its own for the loosest.
    pub fn looser(self) -> Level
        ensures { result ≡ looser self }
    {
        match self {
            Level::Unary => Level::Product,
            Level::Product => Level::Sum,
            Level::Sum => Level::Shift,
            Level::Shift => Level::Relation,
            Level::Relation => Level::Equality,
            Level::Equality => Level::BitwiseAnd,
            Level::BitwiseAnd => Level::BitwiseXor,
            Level::BitwiseXor => Level::BitwiseOr,
            Level::BitwiseOr => Level::LogicalAnd,
            Level::LogicalAnd | Level::LogicalOr => Level::LogicalOr,
        }
    }
}
