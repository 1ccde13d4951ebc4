ghost use Rattle.std.specs.Prelude.{◌≡◌};

use crate::Four;

/// What a vector says as an index.
#[derive(Clone, Copy)]
pub enum Index {
    /// Some bit is x or z.
    Strange,
    /// The vector is signed, and its value is negative.
    Below,
    /// The value.
    At(u128),
}

impl Four {
    ghost use Rattle.four_state.specs.Parts.{index as index_value, index_of};

    /// What the vector says as an index (IEEE 1364-2001, clause 4.2.1).
    pub fn index(&self) -> Index
        ensures { result ≡ index_of (index_value self.now.signed self.now.bits) }
    {
        if !self.is_known() {
            Index::Strange
        } else if self.is_negative() {
            Index::Below
        } else {
            Index::At(self.known_ones())
        }
    }
}
