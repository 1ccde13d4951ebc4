//! The kinds of tokens, and the levels of operators.
use cov_host::Place;
use verilog_grammar::{Kind, Level};
use verilog_lexer::{Token, TokenKind};

/// A kind of the lexer, a text, and the kind of the grammar.
const KINDS: &[(TokenKind, &str, Kind)] = &[
    (TokenKind::Keyword, "module", Kind::Module),
    (TokenKind::Keyword, "xor", Kind::XorWord),
    (TokenKind::Operator, ">>>", Kind::ArithmeticShiftRight),
    (TokenKind::Operator, "^~", Kind::XorTilde),
    (TokenKind::System, "$unsigned", Kind::UnsignedCast),
    (TokenKind::System, "$stop", Kind::Task),
    (TokenKind::System, "$random", Kind::OtherSystem),
    (TokenKind::Identifier, "module", Kind::Identifier),
    (TokenKind::Decimal, "12", Kind::Decimal),
    (TokenKind::Based, "'b0", Kind::Based),
    (TokenKind::Quoted, "\"\"", Kind::Quoted),
    (TokenKind::Keyword, "no", Kind::Unknown),
];

fn token(kind: TokenKind, text: &'static str) -> Token<'static> {
    Token {
        kind,
        text: text.as_bytes(),
        place: Place {
            source: 1,
            line: 1,
            column: 1,
        },
    }
}

#[test]
fn kinds_of_tokens(rt: HostRuntime) {
    for (kind, text, wanted) in KINDS {
        assert!(rt; Kind::of(&token(*kind, text)) == *wanted, "{text}");
    }
    assert!(rt; Kind::Nothing.code() == 0);
}

#[test]
fn levels_of_operators(rt: HostRuntime) {
    assert!(rt; Level::Sum.tighter() == Level::Product);
    assert!(rt; Level::Sum.looser() == Level::Shift);
}
