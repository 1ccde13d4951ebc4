//! Tests of a vector of which not all bits are sure.

ghost use Rattle.std.specs.Prelude.{◌≡◌, not, length};
ghost use Rattle.known_state.specs.Partly.{allows_bits};
ghost use Rattle.known_state.specs.Maybe.{IsTruthOf, Holds};

use crate::{Known, KnownTruth, Maybe};
use four_state::{CaseKind, Four, Truth};

impl Known {
    /// What the vector says as a condition (IEEE 1364-2001, clause 9.4). It is unsure only where two allowed values
    /// differ in that.
    pub fn truth(&self) -> KnownTruth
        ensures { IsTruthOf self.now result }
    {
        match self.value().truth() {
            Truth::True => KnownTruth::Sure(Truth::True),
            truth if self.is_whole() => KnownTruth::Sure(truth),
            _ => KnownTruth::Unsure(self.blame()),
        }
    }

    /// Whether the vector is true as a condition.
    pub fn holds(&self) -> Maybe
        ensures { Holds self.now result }
    {
        match self.truth() {
            KnownTruth::Sure(Truth::True) => Maybe::Yes,
            KnownTruth::Sure(Truth::False | Truth::Strange) => Maybe::No,
            KnownTruth::Unsure(thing) => Maybe::Unsure(thing),
        }
    }

    /// Whether a value of the same width differs in a bit that is sure.
    pub fn differs(&self, value: &Four) -> bool
        requires { length self.now.bits ≡ length value.now.bits }
        ensures { result ≡ not (allows_bits self.now.bits value.now.bits) }
    {
        !Four::label(CaseKind::Exact, &self.filled_from(value), value)
    }
}
