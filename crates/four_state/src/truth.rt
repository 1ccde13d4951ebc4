ghost use Rattle.std.specs.Prelude.{◌≡◌};

use crate::{Bit, Four};

/// What a vector says as a condition.
#[derive(Clone, Copy)]
pub enum Truth {
    /// Some bit is 1.
    True,
    /// All bits are 0.
    False,
    /// No bit is 1, and some bit is x or z.
    Strange,
}

impl Truth {
    ghost use Rattle.four_state.specs.Vector.{truth_bit};

    /// The bit that a logical operator gives for it.
    pub(crate) fn to_bit(self) -> Bit
        ensures { result ≡ truth_bit self }
    {
        match self {
            Truth::True => Bit::One,
            Truth::False => Bit::Zero,
            Truth::Strange => Bit::X,
        }
    }
}

impl Four {
    ghost use Rattle.four_state.specs.Vector.{truth as truth_of};

    /// What the vector says as a condition (IEEE 1364-2001, clause 9.4).
    #[tactic(auto, using(crate::proofs::ReductionLaws::all_zero))]
    pub fn truth(&self) -> Truth
        ensures { result ≡ truth_of self.now.bits }
    {
        if self.has_one() {
            Truth::True
        } else if self.is_known() {
            Truth::False
        } else {
            Truth::Strange
        }
    }
}
