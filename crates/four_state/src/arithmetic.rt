//! The arithmetic operators (IEEE 1364-2001, clauses 4.1.5 and 4.5).

ghost use Rattle.std.specs.Prelude.{◌≡◌, ◌==◌, ◌+◌, ◌%◌, ◌^◌, ◌++◌, ◌&&◌, not, length, unsigned_abs, IsTrue, false, true};
ghost use Rattle.four_state.specs.Vector.{fill as copies, all_known, with_bits, HasWidth};
ghost use Rattle.four_state.specs.Arithmetic.{natural, low_bits, whole};
ghost use Rattle.four_state.specs.Operators.{unary_vector, binary_vector, SameShape};

use crate::mask::low_mask;
use crate::{Binary, Bit, Four, Unary};

/// A number cut to the width of `like`.
fn cut(like: &Four, number: u128) -> Four
    ensures value { result ≡ with_bits like.now (low_bits (length like.now.bits) number) }
    ensures within { HasWidth like.now }
{
    Four::make(
        like.width(),
        like.is_signed(),
        number & low_mask(like.width()),
        0,
    )
}

/// All bits x.
fn unknown(like: &Four) -> Four
    ensures { result ≡ with_bits like.now (copies (length like.now.bits) Bit.X) }
{
    Four::fill(like.width(), like.is_signed(), Bit::X)
}

/// `+a`
pub(crate) fn positive(a: &Four) -> Four
    ensures { result ≡ unary_vector Unary.Positive a.now }
{
    if a.is_known() { *a } else { unknown(a) }
}

/// `-a`
pub(crate) fn negative(a: &Four) -> Four
    ensures { result ≡ unary_vector Unary.Negative a.now }
{
    if a.is_known() {
        cut(a, a.known_ones().wrapping_neg())
    } else {
        unknown(a)
    }
}

/// `a + b`
pub(crate) fn add(a: &Four, b: &Four) -> Four
    requires { SameShape a.now b.now }
    ensures { result ≡ binary_vector Binary.Add a.now b.now }
{
    if Four::are_known(a, b) {
        cut(a, a.known_ones().wrapping_add(b.known_ones()))
    } else {
        unknown(a)
    }
}

/// `a - b`
pub(crate) fn subtract(a: &Four, b: &Four) -> Four
    requires { SameShape a.now b.now }
    ensures { result ≡ binary_vector Binary.Subtract a.now b.now }
{
    if Four::are_known(a, b) {
        cut(a, a.known_ones().wrapping_sub(b.known_ones()))
    } else {
        unknown(a)
    }
}

/// `a * b`
pub(crate) fn multiply(a: &Four, b: &Four) -> Four
    requires { SameShape a.now b.now }
    ensures { result ≡ binary_vector Binary.Multiply a.now b.now }
{
    if Four::are_known(a, b) {
        cut(a, a.known_ones().wrapping_mul(b.known_ones()))
    } else {
        unknown(a)
    }
}

/// How far the value of a known vector is from 0.
fn magnitude(a: &Four) -> u128
    requires { IsTrue (all_known a.now.bits) }
    ensures { result ≡ unsigned_abs (whole a.now.signed a.now.bits) }
{
    if a.is_negative() {
        low_mask(a.width()) - a.known_ones() + 1
    } else {
        a.known_ones()
    }
}

/// A number that is added to, or that is taken from 0, in 128 bits.
fn with_sign(negative: bool, number: u128) -> u128
    ensures positive { negative ≡ false → result ≡ number }
    ensures negative { negative ≡ true → (result + number) % 2 ^ 128 ≡ 0 }
{
    if negative {
        number.wrapping_neg()
    } else {
        number
    }
}

/// Whether no bit of both is x or z, and the divisor is not 0.
fn can_divide(a: &Four, b: &Four) -> bool
    ensures { result ≡ (all_known (a.now.bits ++ b.now.bits) && not (natural b.now.bits == 0)) }
{
    Four::are_known(a, b) && b.known_ones() != 0
}

/// `a / b`
pub(crate) fn divide(a: &Four, b: &Four) -> Four
    requires { SameShape a.now b.now }
    ensures { result ≡ binary_vector Binary.Divide a.now b.now }
{
    if !can_divide(a, b) {
        return unknown(a);
    }
    let quotient = magnitude(a) / magnitude(b);
    cut(a, with_sign(a.is_negative() != b.is_negative(), quotient))
}

/// `a % b`
pub(crate) fn modulus(a: &Four, b: &Four) -> Four
    requires { SameShape a.now b.now }
    ensures { result ≡ binary_vector Binary.Modulus a.now b.now }
{
    if !can_divide(a, b) {
        return unknown(a);
    }
    let remainder = magnitude(a) % magnitude(b);
    cut(a, with_sign(a.is_negative(), remainder))
}
