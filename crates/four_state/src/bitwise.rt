//! The bitwise operators (IEEE 1364-2001, clause 4.1.10).

ghost use Rattle.std.specs.Prelude.{◌≡◌, ◌^◌, ◌<◌, length};
ghost use Rattle.four_state.specs.Vector.{with_bits};
ghost use Rattle.four_state.specs.Operators.{unary_vector, binary_vector, choice_vector};
ghost use Rattle.four_state.specs.Masks.{bits_of_known};

use crate::mask::low_mask;
use crate::{Binary, Four, Truth, Unary};

/// The vector with 1 at the places of one mask, 0 at those of another, and x elsewhere.
#[tactic(auto, using(crate::proofs::BitwiseLaws::or_inside))]
fn known(like: &Four, ones: u128, zeros: u128) -> Four
    requires ones_inside { ones < 2 ^ length like.now.bits }
    requires zeros_inside { zeros < 2 ^ length like.now.bits }
    ensures { result ≡ with_bits like.now (bits_of_known (length like.now.bits) ones zeros) }
{
    Four::make(
        like.width(),
        like.is_signed(),
        ones,
        low_mask(like.width()) - (ones | zeros),
    )
}

/// `~a`
#[tactic(auto, using(crate::proofs::BitwiseLaws::not_of_masks))]
pub(crate) fn not(a: &Four) -> Four
    ensures { result ≡ unary_vector Unary.BitwiseNot a.now }
{
    known(a, a.known_zeros(), a.known_ones())
}

/// `a & b`
#[tactic(auto, using(crate::proofs::BitwiseLaws::and_of_masks, crate::proofs::BitwiseLaws::and_inside, crate::proofs::BitwiseLaws::or_inside))]
pub(crate) fn and(a: &Four, b: &Four) -> Four
    requires { length a.now.bits ≡ length b.now.bits }
    ensures { result ≡ binary_vector Binary.BitwiseAnd a.now b.now }
{
    known(
        a,
        a.known_ones() & b.known_ones(),
        a.known_zeros() | b.known_zeros(),
    )
}

/// `a | b`
#[tactic(auto, using(crate::proofs::BitwiseLaws::or_of_masks, crate::proofs::BitwiseLaws::and_inside, crate::proofs::BitwiseLaws::or_inside))]
pub(crate) fn or(a: &Four, b: &Four) -> Four
    requires { length a.now.bits ≡ length b.now.bits }
    ensures { result ≡ binary_vector Binary.BitwiseOr a.now b.now }
{
    known(
        a,
        a.known_ones() | b.known_ones(),
        a.known_zeros() & b.known_zeros(),
    )
}

/// `a ^ b`
#[tactic(auto, using(crate::proofs::BitwiseLaws::xor_of_masks, crate::proofs::BitwiseLaws::and_inside, crate::proofs::BitwiseLaws::or_inside))]
pub(crate) fn xor(a: &Four, b: &Four) -> Four
    requires { length a.now.bits ≡ length b.now.bits }
    ensures { result ≡ binary_vector Binary.BitwiseXor a.now b.now }
{
    let different = a.known_ones() & b.known_zeros() | a.known_zeros() & b.known_ones();
    let equal = a.known_ones() & b.known_ones() | a.known_zeros() & b.known_zeros();
    known(a, different, equal)
}

/// The bits that are equal 0 or equal 1, and x elsewhere.
#[tactic(auto, using(crate::proofs::BitwiseLaws::merge_of_masks, crate::proofs::BitwiseLaws::and_inside, crate::proofs::BitwiseLaws::or_inside))]
pub(crate) fn merge(a: &Four, b: &Four) -> Four
    requires { length a.now.bits ≡ length b.now.bits }
    ensures { result ≡ choice_vector Truth.Strange a.now b.now }
{
    known(
        a,
        a.known_ones() & b.known_ones(),
        a.known_zeros() & b.known_zeros(),
    )
}
