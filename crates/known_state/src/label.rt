ghost use Rattle.std.specs.Prelude.{◌≡◌, ◌&&◌, length};
ghost use Rattle.four_state.specs.Operators.{matches};
ghost use Rattle.known_state.specs.Partly.{filled};
ghost use Rattle.known_state.specs.Maybe.{Matches};

use crate::{Known, Maybe};
use four_state::{Bit, CaseKind, Four};

/// Whether a label matches for 0 with 0, for 1 with 1 and for 0 with 1 at the bits that are not sure.
fn always_matches(kind: CaseKind, a: &Known, b: &Known) -> bool
    requires { length a.now.bits ≡ length b.now.bits }
    ensures { result ≡ (matches kind (filled Bit.Zero a.now.bits) (filled Bit.Zero b.now.bits) && (matches kind (filled Bit.One a.now.bits) (filled Bit.One b.now.bits) && matches kind (filled Bit.Zero a.now.bits) (filled Bit.One b.now.bits))) }
{
    let low = a.filled(Bit::Zero);
    let ones = b.filled(Bit::One);
    Four::label(kind, &low, &b.filled(Bit::Zero))
        && Four::label(kind, &a.filled(Bit::One), &ones)
        && Four::label(kind, &low, &ones)
}

impl Known {
    /// Whether a label of a case statement matches its selector (IEEE 1364-2001, clause 9.5.1). It is unsure exactly
    /// where two pairs of allowed values differ in that.
    pub fn label(kind: CaseKind, a: &Known, b: &Known) -> Maybe
        requires { length a.now.bits ≡ length b.now.bits }
        ensures { Matches kind a.now b.now result }
    {
        let (left, right) = (a.value(), b.value());
        if !Four::label(kind, &a.filled_from(&right), &b.filled_from(&left)) {
            Maybe::No
        } else if always_matches(kind, a, b) {
            Maybe::Yes
        } else {
            Maybe::Unsure(Known::first_blame(a, b))
        }
    }
}
