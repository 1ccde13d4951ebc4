//! Digits of 1, 3 or 4 bits each (IEEE 1364-2001 clause 2.5.1).

ghost use Rattle.std.specs.Prelude.{◌≡◌, ◌-◌, ◌^◌, ◌≤◌, ◌<◌, ◌++◌, Some, None, if◌then◌else◌, slice_index, filter};
ghost use Rattle.four_state.specs.Vector.{fill, fit};
ghost use Rattle.four_state.specs.declared.bit.Bit.TheVariants.{Zero};
ghost use Rattle.four_state.specs.Masks.{bits_of_masks};
ghost use Rattle.verilog_lexer.specs.Based.{is_strange};
ghost use Rattle.verilog_grammar.specs.Literal.{strange_bit, digit_value, digit_bits, bits_of_digits};
ghost use Rattle.verilog_expressions.specs.Digits.{is_digit};

use four_state::{Bit, Four};

/// Two masks of bits: a 1 bit is in the first, x in the second, z in both.
#[derive(Clone, Copy)]
struct Masks {
    ones: u128,
    strange: u128,
}

/// The mask of the `width` lowest bits.
pub(crate) fn low_mask(width: u8) -> u128
    requires low { 1 ≤ width }
    requires high { width ≤ 128 }
    ensures { result ≡ 2 ^ width - 1 }
{
    u128::MAX >> (128 - width)
}

/// The bit of a digit x, z or ?.
pub(crate) fn strange_bit(byte: u8) -> Option<Bit>
    ensures { result ≡ (if is_strange byte then Some (strange_bit byte) else None) }
{
    match byte {
        b'x' | b'X' => Some(Bit::X),
        b'z' | b'Z' | b'?' => Some(Bit::Z),
        _ => None,
    }
}

/// The number of a digit.
fn digit_value(byte: u8) -> u8
    ensures { result ≡ digit_value byte }
{
    if byte >= b'a' {
        byte - 87
    } else if byte >= b'A' {
        byte - 55
    } else {
        byte.saturating_sub(b'0')
    }
}

/// The first digit that is no underscore, and 0 without one.
#[tactic(auto, using(crate::proofs::PushedDigits::firsts))]
pub(crate) fn first_digit(digits: &[u8]) -> u8
    ensures { result ≡ slice_index (filter is_digit digits.now) 0 }
{
    for byte in digits {
        if *byte != b'_' {
            return *byte;
        }
    }
    0
}

/// `width` bits that are all this one.
fn copies(width: u8, bit: Bit) -> Masks
    requires low { 1 ≤ width }
    requires high { width ≤ 128 }
    ensures value { bits_of_masks width result.ones result.strange ≡ fill width bit }
    ensures ones { result.ones < 2 ^ width }
    ensures strange { result.strange < 2 ^ width }
{
    let all = low_mask(width);
    let (ones, strange) = match bit {
        Bit::Zero => (0, 0),
        Bit::One => (all, 0),
        Bit::X => (0, all),
        Bit::Z => (all, all),
    };
    Masks { ones, strange }
}

/// The bits of a digit.
fn digit_masks(bits: u8, byte: u8) -> Masks
    requires low { 1 ≤ bits }
    requires high { bits ≤ 128 }
    ensures value { bits_of_masks bits result.ones result.strange ≡ digit_bits bits byte }
    ensures ones { result.ones < 2 ^ bits }
    ensures strange { result.strange < 2 ^ bits }
{
    match strange_bit(byte) {
        Some(bit) => copies(bits, bit),
        None => Masks {
            ones: u128::from(digit_value(byte)) & low_mask(bits),
            strange: 0,
        },
    }
}

/// The lowest 128 bits with those of one digit more below them.
fn with_digit(above: Masks, bits: u8, byte: u8) -> Masks
    requires low { 1 ≤ bits }
    requires high { bits ≤ 4 }
    ensures { bits_of_masks 128 result.ones result.strange ≡ fit 128 Zero (digit_bits bits byte ++ bits_of_masks 128 above.ones above.strange) }
{
    let digit = digit_masks(bits, byte);
    Masks {
        ones: above.ones << bits | digit.ones,
        strange: above.strange << bits | digit.strange,
    }
}

/// The lowest 128 bits of digits, filled up by x or z where the leftmost one is.
#[tactic(auto, using(crate::proofs::PushedDigits::pushes))]
fn digits_masks(bits: u8, digits: &[u8]) -> Masks
    requires low { 1 ≤ bits }
    requires high { bits ≤ 4 }
    ensures { bits_of_masks 128 result.ones result.strange ≡ bits_of_digits bits 128 (filter is_digit digits.now) }
{
    let filler = strange_bit(first_digit(digits)).unwrap_or(Bit::Zero);
    let mut masks = copies(128, filler);
    for byte in digits {
        if *byte != b'_' {
            masks = with_digit(masks, bits, *byte);
        }
    }
    masks
}

/// The value of digits of `bits` bits each, cut or filled up to a width.
pub(crate) fn digits_value(width: u8, signed: bool, bits: u8, digits: &[u8]) -> Four
    requires low { 1 ≤ width }
    requires high { width ≤ 128 }
    requires least { 1 ≤ bits }
    requires most { bits ≤ 4 }
    ensures { result ≡ record { bits = bits_of_digits bits width (filter is_digit digits.now); signed = signed } }
{
    let Masks { ones, strange } = digits_masks(bits, digits);
    let inside = low_mask(width);
    Four::make(width, signed, ones & inside, strange & inside)
}
