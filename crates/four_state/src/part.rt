//! Extension, parts and concatenation (IEEE 1364-2001, clauses 4.1.14, 4.2.1 and 4.5.2).

ghost use Rattle.std.specs.Prelude.{◌≡◌, ◌+◌, ◌≤◌, length};

use crate::mask::{low_mask, put_at, seen_from};
use crate::{Bit, Four};

impl Four {
    ghost use Rattle.four_state.specs.Parts.{extended_vector, selected_vector, placed_vector, appended_vector};

    /// The vector at another width: a wider one is filled by the top bit if the vector is signed and else by 0, and
    /// a narrower one is cut. The sign flag is the one that is handed in.
    pub fn extend(&self, width: u8, signed: bool) -> Four
        requires at_least { 1 ≤ width }
        requires at_most { width ≤ 128 }
        ensures { result ≡ extended_vector width signed self.now }
    {
        let filled = Four::fill(width, signed, self.filler());
        filled.overlaid(low_mask(self.width()), self.ones(), self.strange())
    }

    /// The unsigned vector of `width` bits from the offset `low` up. Bits outside read x.
    pub fn select(&self, low: i64, width: u8) -> Four
        requires at_least { 1 ≤ width }
        requires at_most { width ≤ 128 }
        ensures { result ≡ selected_vector low width self.now }
    {
        let inside = seen_from(low_mask(self.width()), low);
        let outside = Four::fill(width, false, Bit::X);
        outside.overlaid(
            inside,
            seen_from(self.ones(), low),
            seen_from(self.strange(), low),
        )
    }

    /// The vector with the bits of `part` from the offset `low` up. Bits of the part that fall outside are dropped.
    pub fn place(&self, low: i64, part: &Four) -> Four
        ensures { result ≡ placed_vector low part.now self.now }
    {
        let inside = put_at(low_mask(part.width()), low);
        self.overlaid(
            inside,
            put_at(part.ones(), low),
            put_at(part.strange(), low),
        )
    }

    /// The unsigned concatenation of two vectors.
    pub fn append(high: &Four, low: &Four) -> Four
        requires { length high.now.bits + length low.now.bits ≤ 128 }
        ensures { result ≡ appended_vector high.now low.now }
    {
        let width = high.width() + low.width();
        let ones = high.ones() << low.width() | low.ones();
        let strange = high.strange() << low.width() | low.strange();
        Four::make(width, false, ones, strange)
    }
}
