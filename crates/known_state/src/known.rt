ghost use Rattle.std.specs.Prelude.{◌≡◌, ◌^◌, ◌<◌, ◌≤◌, length, map, replicate, if◌then◌else◌, false, true, Some, None};
ghost use Rattle.four_state.specs.Vector.{HasWidth};
ghost use Rattle.known_state.specs.Partly.{is_whole as is_whole_value, filled as filled_bits, filled_from as bits_filled_from, whole_of, with_blame};
ghost use Rattle.known_state.specs.Stored.{sure_bits, mask_of_sure};

use crate::mask::low_mask;
use four_state::{Bit, Four};
use std::marker::Model;

/// A vector of which some bits are sure and the others can have any value, with the thing to blame for those.
/// Contracts see it as its bits, each sure or not, its sign flag and its blame, and so as a test on vectors: those
/// that agree with its sure bits are allowed.
#[derive(Clone, Copy, PartialEq, Eq)]
pub struct Known {
    value: Four,
    sure: u128,
    blame: u32,
}

impl Model for Known {
    ghost use Rattle.known_state.specs.Partly.{Partly, filled as filled_zero};
    ghost use Rattle.four_state.specs.declared.bit.Bit.TheVariants.{Zero};
    ghost use Rattle.known_state.specs.Stored.{kept_as, mask_of_sure, mask_of_bits, IsKept};

    ghost Value = { Partly };

    ghost view = { λ k. kept_as k.value k.sure k.blame };

    ghost invariant = { λ k. IsKept k.value k.sure k.blame };

    ghost inverse = { λ v. record {
      value = record { bits = filled_zero Zero v.bits; signed = v.signed };
      sure = mask_of_sure v.bits;
      blame = v.blame;
    } };

    ghost inverse_ok = { λ k h i. record {
      value = record { bits = h.blank i; signed = k.value.signed };
      sure = mask_of_bits k.value.bits k.sure h.inside i;
      blame = k.blame;
    } };
}

/// Nothing is to blame where all bits are sure.
fn spared(whole: bool, blame: u32) -> u32
    ensures { result ≡ (if whole then 0 else blame) }
{
    if whole { 0 } else { blame }
}

impl Known {
    /// A vector of which every bit is sure.
    pub fn whole(value: Four) -> Known
        ensures { result ≡ whole_of value }
    {
        Known::kept(&value, low_mask(value.width()), 0)
    }

    /// A vector of which no bit is sure.
    pub fn unknown(width: u8, signed: bool, blame: u32) -> Known
        requires at_least { 1 ≤ width }
        requires at_most { width ≤ 128 }
        ensures { result ≡ record { bits = replicate width None; signed = signed; blame = blame } }
    {
        Known::kept(&Four::fill(width, signed, Bit::Zero), 0, blame)
    }

    /// The bits of a vector at the places of `sure`. Where these are all, nothing is to blame.
    pub(crate) fn kept(value: &Four, sure: u128, blame: u32) -> Known
        ensures { result ≡ with_blame (sure_bits value.now.bits sure) value.now.signed blame }
    {
        let all = low_mask(value.width());
        let sure = sure & all;
        Known {
            value: Four::make(
                value.width(),
                value.is_signed(),
                value.ones() & sure,
                value.strange() & sure,
            ),
            sure,
            blame: spared(sure == all, blame),
        }
    }

    /// How many bits there are.
    pub fn width(&self) -> u8
        ensures value { result ≡ length self.now.bits }
        ensures at_least { 1 ≤ length self.now.bits }
        ensures at_most { length self.now.bits ≤ 128 }
    {
        self.value.width()
    }

    /// Whether the vector is a number in two's complement.
    pub fn is_signed(&self) -> bool
        ensures { result ≡ self.now.signed }
    {
        self.value.is_signed()
    }

    /// The vector with 0 where it is not sure.
    pub fn value(&self) -> Four
        ensures value { result ≡ record { bits = filled_bits Bit.Zero self.now.bits; signed = self.now.signed } }
        ensures whole { is_whole_value self.now ≡ true → self.now ≡ whole_of result }
    {
        self.value
    }

    /// The mask of the bits that are sure.
    pub fn sure(&self) -> u128
        ensures { result ≡ mask_of_sure self.now.bits }
    {
        self.sure
    }

    /// The thing to blame for the bits that are not sure; 0 where all are sure.
    pub fn blame(&self) -> u32
        ensures value { result ≡ self.now.blame }
        ensures whole { is_whole_value self.now ≡ true → result ≡ 0 }
    {
        self.blame
    }

    /// Whether all bits are sure.
    pub fn is_whole(&self) -> bool
        ensures { result ≡ is_whole_value self.now }
    {
        self.sure == low_mask(self.value.width())
    }

    /// The vector with the bits of another one where it is not sure, and 0 past its end.
    pub(crate) fn filled_from(&self, other: &Four) -> Four
        ensures { result ≡ record { bits = bits_filled_from self.now.bits other.now.bits; signed = self.now.signed } }
    {
        let unsure = low_mask(self.value.width()) & !self.sure;
        Four::make(
            self.value.width(),
            self.value.is_signed(),
            self.value.ones() | other.ones() & unsure,
            self.value.strange() | other.strange() & unsure,
        )
    }

    /// The vector with this bit where it is not sure.
    pub(crate) fn filled(&self, bit: Bit) -> Four
        ensures { result ≡ record { bits = filled_bits bit self.now.bits; signed = self.now.signed } }
    {
        self.filled_from(&Four::fill(self.width(), false, bit))
    }
}
