ghost use Rattle.std.specs.Prelude.{◌≡◌};
ghost use Rattle.vcd_reader.specs.Reading.{is_last};
ghost use Rattle.vcd_reader.specs.Header.{keyword_of, passed_keyword};

const SCOPE: &[u8] = b"$scope";

const UPSCOPE: &[u8] = b"$upscope";

const VARIABLE: &[u8] = b"$var";

const END_DEFINITIONS: &[u8] = b"$enddefinitions";

/// The word that ends a section.
pub(crate) const END_WORD: &[u8] = b"$end";

/// What opens a section of the header (IEEE 1364-2001 clause 18.2.3).
#[derive(Clone, Copy)]
pub(crate) enum Keyword {
    Scope,
    Upscope,
    Variable,
    EndDefinitions,
    /// Any other word with a dollar sign, whose section is passed over.
    Passed,
}

impl Keyword {
    /// The section that the word opens. None where it opens none.
    pub(crate) fn of(word: &[u8]) -> Option<Keyword>
        ensures { result ≡ keyword_of word.now }
    {
        if word == SCOPE {
            Some(Keyword::Scope)
        } else if word == UPSCOPE {
            Some(Keyword::Upscope)
        } else if word == VARIABLE {
            Some(Keyword::Variable)
        } else if word == END_DEFINITIONS {
            Some(Keyword::EndDefinitions)
        } else {
            passed(word)
        }
    }

    /// Whether the section ends the header.
    pub(crate) fn is_last(self) -> bool
        ensures { result ≡ is_last self }
    {
        matches!(self, Keyword::EndDefinitions)
    }
}

/// A section that is passed over, where the word begins with a dollar sign.
fn passed(word: &[u8]) -> Option<Keyword>
    ensures { result ≡ passed_keyword word.now }
{
    match word {
        [b'$', ..] => Some(Keyword::Passed),
        _ => None,
    }
}
