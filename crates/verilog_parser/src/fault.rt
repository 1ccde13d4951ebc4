ghost use Rattle.std.specs.Prelude.{◌≡◌};
ghost use Rattle.verilog_parser.specs.FaultText.{parse_text};

use cov_host::{Name, Place};

/// What is wrong with tokens.
#[derive(Clone, Copy)]
pub enum ParseKind {
    /// No rule of the grammar goes on with a token.
    Unexpected = 1,
    /// The tokens end inside a module.
    EarlyEnd = 2,
    /// Statements and expressions nest too deep.
    TooDeep = 3,
    /// No rule goes on with a token that begins a form which the language leaves out.
    LeftOut = 4,
}

impl ParseKind {
    /// The stage, the number and the name, as messages have them.
    pub fn text(self) -> &'static str
        ensures { result.now ≡ parse_text self }
    {
        match self {
            ParseKind::Unexpected => "parse 1 Unexpected",
            ParseKind::EarlyEnd => "parse 2 EarlyEnd",
            ParseKind::TooDeep => "parse 3 TooDeep",
            ParseKind::LeftOut => "parse 4 LeftOut",
        }
    }
}

/// Why tokens are no modules. The place is that of the token, and of the part that nests too deep, and None where the
/// tokens end. The detail is the form that is left out.
#[derive(Drop)]
pub enum ParseFault {
    /// Memory ran out.
    NoMemory,
    /// Something is wrong at a place.
    At {
        /// What is wrong.
        kind: ParseKind,
        /// Of the token, or of the part that nests too deep. None where the tokens end.
        place: Option<Place>,
        /// The form that is left out.
        detail: Option<Name>,
    },
}
