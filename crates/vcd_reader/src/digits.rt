ghost use Rattle.std.specs.Prelude.{◌≡◌, ◌<◌, ◌≤◌, ◌^◌, ◌+◌, min, ℕ, true, false, ◌&&◌, List, [], ◌∷◌, ◌++◌, length, take};
ghost use Rattle.std.specs.List.{list_all};
ghost use Rattle.four_state.specs.declared.Bit.{Bit as SpecBit};
ghost use Rattle.four_state.specs.Masks.{is_strange};
ghost use Rattle.vcd_reader.specs.Values.{is_digit, digit_bit, value_bits};

use crate::letters::{begins_strange, is_digit, writes_one_or_z, writes_strange};
use crate::masks::{Masks, is_strange};
use digit_lanes::{DigitMasks, digit_masks};
use four_state::{Bit, Four};

/// The widest value that is kept, in bits.
const WIDEST: u64 = 128;

/// More digits than any variable has bits.
const MANY: u64 = 1 << 32;

/// The digits of a change that were read so far, the highest first.
#[derive(Clone, Copy)]
pub(crate) struct Digits {
    /// How many there are, or 2^32 where they are more.
    pub(crate) count: u64,
    /// The bits of the digits, where they are at most 128.
    pub(crate) masks: Masks,
    /// Whether the first digit is x or z, which goes on to the left.
    pub(crate) goes_on: bool,
    /// Whether each byte was a digit.
    pub(crate) are_digits: bool,
    ghost few: { count ≤ 2 ^ 32 },
    ghost ones_inside: { masks.ones < 2 ^ count },
    ghost strange_inside: { masks.strange < 2 ^ count },
}

impl Digits {
    ghost use Rattle.vcd_reader.specs.Masks.{AreMasksOf};
    ghost use Rattle.vcd_reader.specs.Holding.{AreDigitsOf};

    /// No digits yet.
    pub(crate) fn new() -> Self
        ensures { AreDigitsOf result [] }
    {
        Digits {
            count: 0,
            masks: Masks::NONE,
            goes_on: false,
            are_digits: true,
        }
    }

    /// One digit.
    pub(crate) fn of_one(digit: u8) -> Self
        ensures digits { AreDigitsOf result (digit ∷ []) }
        ensures some { 0 < result.count }
    {
        Digits::new().with_byte(digit)
    }

    /// The digits of a word after its letter.
    pub(crate) fn of(word: &[u8]) -> Self
        ensures { AreDigitsOf result word.now }
    {
        let mut digits = Digits::new();
        for byte in word {
            digits = digits.with_byte(*byte);
        }
        digits
    }

    /// The first `count` bytes, which are digits.
    #[inline(always)]
    pub(crate) fn of_front(bytes: &[u8], count: usize) -> Self
        requires some { 0 < count }
        requires within { count ≤ length bytes.now }
        requires narrow { count ≤ 128 }
        requires digits { list_all is_digit (take count bytes.now) ≡ true }
        ensures digits { AreDigitsOf result (take count bytes.now) }
        ensures count { result.count ≡ count }
    {
        let DigitMasks { ones, strange } = digit_masks(bytes, count);
        Digits {
            count: count as u64,
            masks: Masks { ones, strange },
            goes_on: begins_strange(bytes),
            are_digits: true,
        }
    }

    /// The digits with one byte more.
    pub(crate) fn with_byte(self, byte: u8) -> Self
        ensures digits { (word : List ℕ) → AreDigitsOf self word → AreDigitsOf result (word ++ byte ∷ []) }
        ensures some { 0 < result.count }
    {
        let bit = digit_bit(byte);
        Digits {
            count: self.count_more(),
            masks: self.masks_with(bit),
            goes_on: self.goes_on_with(bit),
            are_digits: self.are_digits_with(byte),
        }
    }

    /// How many digits there are with one more.
    fn count_more(&self) -> u64
        ensures { result ≡ min (self.now.count + 1) (2 ^ 32) }
    {
        if self.count < MANY {
            self.count + 1
        } else {
            MANY
        }
    }

    /// The bits with one more, where there is room.
    fn masks_with(&self, bit: Bit) -> Masks
        ensures masks { (bits : List SpecBit) → self.now.count < 128 → AreMasksOf bits self.now.masks → AreMasksOf (bit ∷ bits) result }
        ensures ones { result.ones < 2 ^ min (self.now.count + 1) (2 ^ 32) }
        ensures strange { result.strange < 2 ^ min (self.now.count + 1) (2 ^ 32) }
    {
        if self.count < WIDEST {
            self.masks.with_bit(bit)
        } else {
            self.masks
        }
    }

    /// Whether each byte is a digit, this one too.
    fn are_digits_with(&self, byte: u8) -> bool
        ensures { result ≡ (self.now.are_digits && is_digit byte) }
    {
        self.are_digits && is_digit(byte)
    }

    /// Whether the first digit is x or z, where this bit comes next.
    fn goes_on_with(&self, bit: Bit) -> bool
        ensures first { self.now.count ≡ 0 → result ≡ is_strange bit }
        ensures later { 0 < self.now.count → result ≡ self.now.goes_on }
    {
        if self.count == 0 {
            is_strange(bit)
        } else {
            self.goes_on
        }
    }

    /// The value of this size that the digits write. Fewer digits are extended on the left: by x after x, by z after
    /// z, and else by 0 (IEEE 1364-2001 clause 18.2.2).
    pub(crate) fn value(&self, size: u8) -> Four
        requires some { 0 < self.now.count }
        requires fits { self.now.count ≤ size }
        requires kept { size ≤ 128 }
        ensures { (word : List ℕ) → AreDigitsOf self.now word → result ≡ record { bits = value_bits size word; signed = false } }
    {
        let count = self.count as u8;
        if count == size {
            return Four::make(size, false, self.masks.ones, self.masks.strange);
        }
        let digits = Four::make(count, self.goes_on, self.masks.ones, self.masks.strange);
        digits.extend(size, false)
    }
}

/// The bit of a digit.
fn digit_bit(digit: u8) -> Bit
    ensures { result ≡ digit_bit digit }
{
    match digit {
        b'0' => Bit::Zero,
        b'1' => Bit::One,
        b'x' | b'X' => Bit::X,
        _ => Bit::Z,
    }
}

/// The value of one bit that a digit writes.
pub(crate) fn bit_value(digit: u8) -> Four
    ensures { result ≡ record { bits = value_bits 1 (digit ∷ []); signed = false } }
{
    let ones = u128::from(writes_one_or_z(digit));
    let strange = u128::from(writes_strange(digit));
    Four::make(1, false, ones, strange)
}
