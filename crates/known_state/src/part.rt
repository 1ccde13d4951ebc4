//! Extension, parts and concatenation (IEEE 1364-2001, clauses 4.1.14, 4.2.1 and 4.5.2). Bits are only moved, so a bit
//! is sure exactly where it is the same for all allowed values.

ghost use Rattle.std.specs.Prelude.{◌≡◌, ◌+◌, ◌≤◌, ◌++◌, neg_ℤ, length, IsTrue, false};
ghost use Rattle.four_state.specs.Vector.{Vector, extend as extended_bits};
ghost use Rattle.four_state.specs.Parts.{bits_from, bits_with, extended_vector, selected_vector, placed_vector, appended_vector};
ghost use Rattle.known_state.specs.Partly.{allows, whole_of, is_whole};
ghost use Rattle.known_state.specs.Answers.{IsTight, allow_both};
ghost use Rattle.known_state.specs.Join.{first_blame};

use crate::Known;
use four_state::{Bit, Four};

impl Known {
    /// The vector at another width: a wider one is filled by the top bit if the vector is signed and else by 0, and
    /// a narrower one is cut. The sign flag is the one that is handed in.
    pub fn extend(&self, width: u8, signed: bool) -> Known
        requires at_least { 1 ≤ width }
        requires at_most { width ≤ 128 }
        ensures sound { (v : Vector) → IsTrue (allows self.now v) → IsTrue (allows result (extended_vector width signed v)) }
        ensures tight { IsTight (allows self.now) (λ v. extended_bits width v.signed v.bits) result.bits }
        ensures exact { (v : Vector) → self.now ≡ whole_of v → result ≡ whole_of (extended_vector width signed v) }
        ensures blame { is_whole result ≡ false → result.blame ≡ self.now.blame }
    {
        let zeros = self.filled(Bit::Zero).extend(width, signed);
        let ones = self.filled(Bit::One).extend(width, signed);
        Known::whole(zeros).narrowed(ones, self.blame())
    }

    /// The unsigned vector of `width` bits from the offset `low` up. Bits outside read x.
    pub fn select(&self, low: i64, width: u8) -> Known
        requires at_least { 1 ≤ width }
        requires at_most { width ≤ 128 }
        ensures sound { (v : Vector) → IsTrue (allows self.now v) → IsTrue (allows result (selected_vector low width v)) }
        ensures tight { IsTight (allows self.now) (λ v. bits_from v.bits low width) result.bits }
        ensures exact { (v : Vector) → self.now ≡ whole_of v → result ≡ whole_of (selected_vector low width v) }
        ensures blame { is_whole result ≡ false → result.blame ≡ self.now.blame }
    {
        let zeros = self.filled(Bit::Zero).select(low, width);
        let ones = self.filled(Bit::One).select(low, width);
        Known::whole(zeros).narrowed(ones, self.blame())
    }

    /// The vector with the bits of `part` from the offset `low` up. Bits of the part that fall outside are dropped. The
    /// blame is that of the part where some bit of it is not sure, also where such a bit falls outside.
    pub fn place(&self, low: i64, part: &Known) -> Known
        ensures sound { (v w : Vector) → IsTrue (allows self.now v) → IsTrue (allows part.now w) → IsTrue (allows result (placed_vector low w v)) }
        ensures tight { IsTight (allow_both self.now part.now) (λ p. bits_with p.0.bits p.1.bits (neg_ℤ low)) result.bits }
        ensures exact { (v w : Vector) → self.now ≡ whole_of v → part.now ≡ whole_of w → result ≡ whole_of (placed_vector low w v) }
        ensures blame { is_whole result ≡ false → result.blame ≡ first_blame part.now self.now }
    {
        let zeros = self.filled(Bit::Zero).place(low, &part.filled(Bit::Zero));
        let ones = self.filled(Bit::One).place(low, &part.filled(Bit::One));
        Known::whole(zeros).narrowed(ones, Known::first_blame(part, self))
    }

    /// The unsigned concatenation of two vectors.
    pub fn append(high: &Known, low: &Known) -> Known
        requires { length high.now.bits + length low.now.bits ≤ 128 }
        ensures sound { (v w : Vector) → IsTrue (allows high.now v) → IsTrue (allows low.now w) → IsTrue (allows result (appended_vector v w)) }
        ensures tight { IsTight (allow_both high.now low.now) (λ p. p.1.bits ++ p.0.bits) result.bits }
        ensures exact { (v w : Vector) → high.now ≡ whole_of v → low.now ≡ whole_of w → result ≡ whole_of (appended_vector v w) }
        ensures blame { is_whole result ≡ false → result.blame ≡ first_blame high.now low.now }
    {
        let zeros = Four::append(&high.filled(Bit::Zero), &low.filled(Bit::Zero));
        let ones = Four::append(&high.filled(Bit::One), &low.filled(Bit::One));
        Known::whole(zeros).narrowed(ones, Known::first_blame(high, low))
    }
}
