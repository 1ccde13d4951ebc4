ghost use Rattle.std.specs.Prelude.{◌≡◌};

/// One bit (IEEE 1364-2001, clause 3.1).
#[derive(Clone, Copy)]
pub enum Bit {
    /// A logic zero, or a false condition.
    Zero,
    /// A logic one, or a true condition.
    One,
    /// An unknown value.
    X,
    /// High impedance.
    Z,
}

impl Bit {
    ghost use Rattle.four_state.specs.Vector.{bit_of};
    ghost use Rattle.four_state.specs.Operators.{not_bit, and_bit, or_bit};
    ghost use Rattle.four_state.specs.Masks.{bit_in_masks};

    /// 1 for true and 0 for false.
    pub(crate) fn of(condition: bool) -> Bit
        ensures { result ≡ bit_of condition }
    {
        if condition { Bit::One } else { Bit::Zero }
    }

    /// The bit that is in these masks of a vector, the one of 1 and z, and the one of x and z.
    pub(crate) fn in_masks(one: bool, strange: bool) -> Bit
        ensures { result ≡ bit_in_masks one strange }
    {
        match (one, strange) {
            (false, false) => Bit::Zero,
            (true, false) => Bit::One,
            (false, true) => Bit::X,
            (true, true) => Bit::Z,
        }
    }

    /// The other bit, or x.
    pub(crate) fn not(self) -> Bit
        ensures { result ≡ not_bit self }
    {
        match self {
            Bit::Zero => Bit::One,
            Bit::One => Bit::Zero,
            Bit::X | Bit::Z => Bit::X,
        }
    }

    /// Whether both are 1.
    pub(crate) fn and(self, other: Bit) -> Bit
        ensures { result ≡ and_bit self other }
    {
        match (self, other) {
            (Bit::Zero, _) | (_, Bit::Zero) => Bit::Zero,
            (Bit::One, Bit::One) => Bit::One,
            _ => Bit::X,
        }
    }

    /// Whether one of both is 1.
    pub(crate) fn or(self, other: Bit) -> Bit
        ensures { result ≡ or_bit self other }
    {
        self.not().and(other.not()).not()
    }
}
