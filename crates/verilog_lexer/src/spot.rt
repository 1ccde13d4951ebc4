ghost use Rattle.std.specs.Prelude.{◌≡◌, ◌+◌, ◌^◌, ◌<◌, length};
ghost use Rattle.verilog_lexer.specs.Spot.{next_place, after, after_all, IsInRange, within_macro, file_spot};

use cov_host::Place;

/// A place in the text. Within a macro it is where the outermost macro is used.
#[derive(Clone, Copy)]
pub(crate) struct Spot {
    pub(crate) place: Place,
    pub(crate) inside: bool,
}

impl Spot {
    /// The spot within the text of a macro that is used here.
    pub(crate) fn within_macro(self) -> Self
        ensures { result ≡ within_macro self }
    {
        Spot {
            place: self.place,
            inside: true,
        }
    }

    /// Where a file begins that is included here.
    pub(crate) fn of_file(self, source: u32) -> Self
        ensures { result ≡ file_spot self source }
    {
        if self.inside {
            self
        } else {
            Spot {
                place: Place {
                    source,
                    line: 1,
                    column: 1,
                },
                inside: false,
            }
        }
    }

    /// The spot after these bytes.
    #[tactic(auto, using(crate::proofs::Spots::spots))]
    pub(crate) fn after_all(self, bytes: &[u8]) -> Self
        requires { IsInRange self (length bytes.now) }
        ensures { result ≡ after_all self bytes.now }
    {
        if self.inside {
            return self;
        }
        let mut place = self.place;
        for byte in bytes {
            place = next_place(place, *byte);
        }
        Spot {
            place,
            inside: false,
        }
    }
}

/// The place after a byte.
fn next_place(place: Place, byte: u8) -> Place
    requires line { place.line + 1 < 2 ^ 32 }
    requires column { place.column + 1 < 2 ^ 32 }
    ensures { result ≡ next_place place byte }
{
    if byte == b'\n' {
        Place {
            source: place.source,
            line: place.line + 1,
            column: 1,
        }
    } else {
        Place {
            source: place.source,
            line: place.line,
            column: place.column + 1,
        }
    }
}
