use cov_host::{Place, Sequence};

/// What a token is (IEEE 1364-2001 clause 2).
#[derive(Clone, Copy)]
pub enum TokenKind {
    /// A name.
    Identifier,
    /// A reserved word.
    Keyword,
    /// A `$` and a name.
    System,
    /// A decimal number without a base.
    Decimal,
    /// A base with digits. The size, if there is one, is the decimal number before it.
    Based,
    /// A string.
    Quoted,
    /// An operator, or a sign such as a comma or a bracket.
    Operator,
}

/// A token. Its text is a slice of its source or of a define, and its place is where it begins, or, if it
/// comes from a macro, where the outermost macro is used.
#[derive(Clone, Copy)]
pub struct Token<'a> {
    /// What it is.
    pub kind: TokenKind,
    /// Its bytes, in its source or in a define.
    pub text: &'a [u8],
    /// Where it begins, or the use of the outermost macro that it comes from.
    pub place: Place,
}

/// Tokens in order.
pub type Tokens<'a> = Sequence<Token<'a>>;
