ghost use Rattle.std.specs.Prelude.{◌≡◌, ◌<◌, ◌^◌, ◌+◌, ◌*◌, List, ◌∷◌};
ghost use Rattle.four_state.specs.declared.Bit.{Bit as SpecBit};
ghost use Rattle.four_state.specs.Masks.{is_one_or_z, is_strange};
ghost use Rattle.vcd_reader.specs.Masks.{AreMasksOf};

use four_state::Bit;

/// Some bits as two masks: 1 is in `ones`, x in `strange`, z in both.
#[derive(Clone, Copy)]
pub(crate) struct Masks {
    pub(crate) ones: u128,
    pub(crate) strange: u128,
}

impl Masks {
    /// No bits.
    pub(crate) const NONE: Masks = Masks {
        ones: 0,
        strange: 0,
    };

    /// The bits with one more at the low end.
    pub(crate) fn with_bit(self, bit: Bit) -> Masks
        requires ones { self.ones < 2 ^ 127 }
        requires strange { self.strange < 2 ^ 127 }
        ensures masks { (bits : List SpecBit) → AreMasksOf bits self → AreMasksOf (bit ∷ bits) result }
        ensures ones { result.ones < 2 * self.ones + 2 }
        ensures strange { result.strange < 2 * self.strange + 2 }
    {
        Masks {
            ones: self.ones * 2 + u128::from(is_one_or_z(bit)),
            strange: self.strange * 2 + u128::from(is_strange(bit)),
        }
    }
}

fn is_one_or_z(bit: Bit) -> bool
    ensures { result ≡ is_one_or_z bit }
{
    matches!(bit, Bit::One | Bit::Z)
}

/// Whether the bit is x or z.
pub(crate) fn is_strange(bit: Bit) -> bool
    ensures { result ≡ is_strange bit }
{
    matches!(bit, Bit::X | Bit::Z)
}
