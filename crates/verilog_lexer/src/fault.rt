ghost use Rattle.std.specs.Prelude.{◌≡◌, Some, None};
ghost use Rattle.verilog_lexer.specs.FaultText.{lex_text};
ghost use Rattle.verilog_lexer.specs.declared.fault.LexFault.TheVariants as lex_fault;

use cov_host::{Name, NoMemory, Place};
use std::alloc::{AllocError, AllocFailed};

/// What is wrong with a source.
#[derive(Clone, Copy)]
pub enum LexKind {
    /// A byte that begins no token, a string without its end on the line, or an identifier of more than 255 bytes.
    BadByte = 1,
    /// A decimal number of 2^32 or more, a size that is not from 1 to 128, or a based number with no digit or too
    /// great a value (IEEE 1364-2001 clause 2.5).
    BadNumber = 2,
    /// A comment or an attribute without its end.
    OpenComment = 3,
    /// A branch or an end of a condition without its beginning, or a condition without its end in the same file.
    OpenCondition = 4,
    /// A directive in a form that is not read, such as a macro with arguments.
    UnknownDirective = 5,
    /// The use of a macro that is not defined.
    UnknownMacro = 6,
    /// Macros and included files nested more than 64 deep.
    MacroDepth = 7,
    /// More than 4,194,304 tokens.
    TooManyTokens = 8,
    /// An included file that is not among the sources.
    IncludeMissing = 9,
    /// Sources of more than 67,108,864 bytes together, where they are not too many.
    SourcesTooLong = 10,
    /// More than 256 sources.
    TooManySources = 11,
    /// The texts that are put in for uses of macros and for inclusions come to more than 134,217,728 bytes together,
    /// where each counts its bytes and 8 more.
    ExpansionTooLong = 12,
}

impl LexKind {
    /// The stage, the number and the name, as messages have them.
    pub fn text(self) -> &'static str
        ensures { result.now ≡ lex_text self }
    {
        match self {
            LexKind::BadByte => "lex 1 BadByte",
            LexKind::BadNumber => "lex 2 BadNumber",
            LexKind::OpenComment => "lex 3 OpenComment",
            LexKind::OpenCondition => "lex 4 OpenCondition",
            LexKind::UnknownDirective => "lex 5 UnknownDirective",
            LexKind::UnknownMacro => "lex 6 UnknownMacro",
            LexKind::MacroDepth => "lex 7 MacroDepth",
            LexKind::TooManyTokens => "lex 8 TooManyTokens",
            LexKind::IncludeMissing => "lex 9 IncludeMissing",
            LexKind::SourcesTooLong => "lex 10 SourcesTooLong",
            LexKind::TooManySources => "lex 11 TooManySources",
            LexKind::ExpansionTooLong => "lex 12 ExpansionTooLong",
        }
    }
}

/// Why sources have no tokens. The place is that of the fault, and None where a file was not added. The
/// detail is the name of an unknown macro, of a missing include or of the file that was not added.
#[derive(Drop)]
pub enum LexFault {
    /// Memory ran out.
    NoMemory,
    /// Something is wrong at a place.
    At {
        /// What is wrong.
        kind: LexKind,
        /// Where it is, None where a file was not added.
        place: Option<Place>,
        /// The name of an unknown macro, of a missing include or of the file that was not added.
        detail: Option<Name>,
    },
}

impl LexFault {
    /// A fault at a place, without detail.
    pub(crate) fn at(kind: LexKind, place: Place) -> Self
        ensures { result ≡ lex_fault.At kind (Some place) None }
    {
        LexFault::At {
            kind,
            place: Some(place),
            detail: None,
        }
    }
}

impl From<AllocError> for LexFault {
    ghost from_gives = { λ _ fault. fault ≡ lex_fault.NoMemory };

    fn from(_: AllocError) -> Self {
        LexFault::NoMemory
    }
}

impl<T: Drop> From<AllocFailed<T>> for LexFault {
    ghost from_gives = { λ _ fault. fault ≡ lex_fault.NoMemory };

    fn from(_: AllocFailed<T>) -> Self {
        LexFault::NoMemory
    }
}

impl From<NoMemory> for LexFault {
    ghost from_gives = { λ _ fault. fault ≡ lex_fault.NoMemory };

    fn from(_: NoMemory) -> Self {
        LexFault::NoMemory
    }
}
