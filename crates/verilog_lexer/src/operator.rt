ghost use Rattle.std.specs.Prelude.{◌≡◌};
ghost use Rattle.verilog_lexer.specs.Operator.{is_triple, is_pair, is_single, operator_length};

use crate::run::byte_at;

/// The operators of three bytes.
const TRIPLES: [[u8; 3]; 4] = [*b"<<<", *b">>>", *b"===", *b"!=="];

/// The operators of two bytes.
#[rattlefmt::skip]
const PAIRS: [[u8; 2]; 16] = [
    *b"<=", *b">=", *b"==", *b"!=", *b"&&", *b"||", *b"<<", *b">>",
    *b"~&", *b"~|", *b"~^", *b"^~", *b"+:", *b"-:", *b"->", *b"**",
];

/// The operators of one byte.
const SINGLES: [u8; 26] = *b"()[]{},;:.=+-*/%!~&|^<>?@#";

/// The number of bytes of the longest operator at the front, 0 where there is no operator (IEEE 1364-2001 clause 2.4).
#[tactic(auto, unfolding(crate::specs::Operator::operator_length))]
pub(crate) fn operator_length(text: &[u8]) -> usize
    ensures { result ≡ operator_length text.now }
{
    let (first, second) = (byte_at(text, 0), byte_at(text, 1));
    if is_triple(first, second, byte_at(text, 2)) {
        3
    } else if is_pair(first, second) {
        2
    } else if is_single(first) {
        1
    } else {
        0
    }
}

/// Whether the three bytes are an operator.
fn is_triple(first: u8, second: u8, third: u8) -> bool
    ensures { result ≡ is_triple first second third }
{
    TRIPLES.iter().any(|word| word[0] == first && word[1] == second && word[2] == third)
}

/// Whether the two bytes are an operator.
fn is_pair(first: u8, second: u8) -> bool
    ensures { result ≡ is_pair first second }
{
    PAIRS
        .iter()
        .any(|word| word[0] == first && word[1] == second)
}

/// Whether the byte is an operator.
fn is_single(first: u8) -> bool
    ensures { result ≡ is_single first }
{
    SINGLES.iter().any(|byte| *byte == first)
}
