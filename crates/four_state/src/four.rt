ghost use Rattle.std.specs.Prelude.{◌≡◌, ◌^◌, ◌<◌, ◌≤◌, ◌&&◌, ◌++◌, if◌then◌else◌, length, slice_get, Some};
ghost use Rattle.std.specs.List.{list_any};
ghost use Rattle.four_state.specs.Vector.{HasWidth, fill as copies, is_one, is_zero, all_known, top as top_bit, with_bits};
ghost use Rattle.four_state.specs.Arithmetic.{natural};
ghost use Rattle.four_state.specs.Masks.{bits_of_masks, bits_over, mask_of, is_one_or_z, is_strange};

use crate::Bit;
use crate::mask::{has_place, low_mask};
use std::marker::Model;

/// A vector of 1 to 128 bits with a sign flag, which contracts see as the list of its bits, the lowest first.
#[derive(Clone, Copy, PartialEq, Eq)]
pub struct Four {
    ones: u128,
    strange: u128,
    width: u8,
    signed: bool,
}

impl Model for Four {
    ghost use Rattle.std.specs.Prelude.{length};
    ghost use Rattle.four_state.specs.Vector.{Vector};
    ghost use Rattle.four_state.specs.Masks.{bits_of_masks, mask_of, is_one_or_z, is_strange, FitsMasks};
    ghost use Rattle.four_state.specs.Stored.{width_of_bits, ones_of_bits, strange_of_bits};

    ghost Value = { Vector };

    ghost view = { λ f. record { bits = bits_of_masks f.width f.ones f.strange; signed = f.signed } };

    ghost invariant = { λ f. FitsMasks f.width f.ones f.strange };

    ghost inverse = { λ v. record {
      ones = mask_of is_one_or_z v.bits;
      strange = mask_of is_strange v.bits;
      width = length v.bits;
      signed = v.signed;
    } };

    ghost inverse_ok = { λ f h i. record {
      ones = ones_of_bits f.width f.ones f.strange h.ones_inside i;
      strange = strange_of_bits f.width f.ones f.strange h.strange_inside i;
      width = width_of_bits f.width f.ones f.strange i;
      signed = f.signed;
    } };
}

impl Four {
    /// The vector of two masks: a 1 bit is in `ones`, x in `strange`, z in both.
    pub fn make(width: u8, signed: bool, ones: u128, strange: u128) -> Four
        requires at_least { 1 ≤ width }
        requires at_most { width ≤ 128 }
        requires ones_inside { ones < 2 ^ width }
        requires strange_inside { strange < 2 ^ width }
        ensures value { result ≡ record { bits = bits_of_masks width ones strange; signed = signed } }
        ensures width { length result.bits ≡ width }
    {
        Four {
            ones,
            strange,
            width,
            signed,
        }
    }

    /// A vector of which every bit is `bit`.
    pub fn fill(width: u8, signed: bool, bit: Bit) -> Four
        requires at_least { 1 ≤ width }
        requires at_most { width ≤ 128 }
        ensures { result ≡ record { bits = copies width bit; signed = signed } }
    {
        let all = low_mask(width);
        match bit {
            Bit::Zero => Four::make(width, signed, 0, 0),
            Bit::One => Four::make(width, signed, all, 0),
            Bit::X => Four::make(width, signed, 0, all),
            Bit::Z => Four::make(width, signed, all, all),
        }
    }

    /// The bit at a place, counted from the lowest.
    pub fn bit(&self, place: u8) -> Bit
        requires { place < length self.now.bits }
        ensures { slice_get self.now.bits place ≡ Some result }
    {
        Bit::in_masks(has_place(self.ones, place), has_place(self.strange, place))
    }

    /// How many bits there are.
    pub fn width(&self) -> u8
        ensures value { result ≡ length self.now.bits }
        ensures within { HasWidth self.now }
    {
        self.width
    }

    /// Whether the vector is a number in two's complement.
    pub fn is_signed(&self) -> bool
        ensures { result ≡ self.now.signed }
    {
        self.signed
    }

    /// The mask of the bits that are 1 or z.
    pub fn ones(&self) -> u128
        ensures within { HasWidth self.now }
        ensures value { result ≡ mask_of is_one_or_z self.now.bits }
        ensures inside { result < 2 ^ length self.now.bits }
    {
        self.ones
    }

    /// The mask of the bits that are x or z.
    pub fn strange(&self) -> u128
        ensures value { result ≡ mask_of is_strange self.now.bits }
        ensures inside { result < 2 ^ length self.now.bits }
    {
        self.strange
    }

    /// The mask of the bits that are 1.
    pub fn known_ones(&self) -> u128
        ensures value { result ≡ mask_of is_one self.now.bits }
        ensures number { result ≡ natural self.now.bits }
        ensures inside { result < 2 ^ length self.now.bits }
    {
        self.ones & !self.strange
    }

    /// The mask of the bits that are 0.
    pub fn known_zeros(&self) -> u128
        ensures value { result ≡ mask_of is_zero self.now.bits }
        ensures inside { result < 2 ^ length self.now.bits }
    {
        low_mask(self.width) & !(self.ones | self.strange)
    }

    /// Whether no bit is x or z.
    pub fn is_known(&self) -> bool
        ensures { result ≡ all_known self.now.bits }
    {
        self.strange == 0
    }

    /// Whether no bit of both vectors is x or z.
    pub(crate) fn are_known(a: &Four, b: &Four) -> bool
        ensures { result ≡ all_known (a.now.bits ++ b.now.bits) }
    {
        a.is_known() && b.is_known()
    }

    /// Whether some bit is 1.
    pub(crate) fn has_one(&self) -> bool
        ensures { result ≡ list_any is_one self.now.bits }
    {
        self.known_ones() != 0
    }

    /// Whether some bit is 0.
    pub(crate) fn has_zero(&self) -> bool
        ensures { result ≡ list_any is_zero self.now.bits }
    {
        self.known_zeros() != 0
    }

    /// The highest bit.
    pub fn top(&self) -> Bit
        ensures { result ≡ top_bit self.now.bits }
    {
        self.bit(self.width - 1)
    }

    /// The bit that fills the vector up where it is extended or shifted to the right with its sign.
    pub(crate) fn filler(&self) -> Bit
        ensures { result ≡ (if self.now.signed then top_bit self.now.bits else Bit.Zero) }
    {
        if self.signed { self.top() } else { Bit::Zero }
    }

    /// Whether the vector is signed and its highest bit is 1.
    pub(crate) fn is_negative(&self) -> bool
        ensures { result ≡ (self.now.signed && is_one (top_bit self.now.bits)) }
    {
        self.signed && self.top() == Bit::One
    }

    /// The bits of two masks at the places of `inside`, over this vector.
    pub(crate) fn overlaid(&self, inside: u128, ones: u128, strange: u128) -> Four
        ensures value { result ≡ with_bits self.now (bits_over self.now.bits inside ones strange) }
        ensures within { HasWidth self.now }
    {
        let inside = inside & low_mask(self.width());
        let ones = self.ones() & !inside | ones & inside;
        let strange = self.strange() & !inside | strange & inside;
        Four::make(self.width(), self.is_signed(), ones, strange)
    }
}
