//! The reduction operators (IEEE 1364-2001, clause 4.1.11).

ghost use Rattle.std.specs.Prelude.{◌≡◌};
ghost use Rattle.four_state.specs.Operators.{reduce, and_bit, or_bit, xor_bit};

use crate::{Bit, Four};

/// `&a`
#[tactic(auto, using(crate::proofs::ReductionLaws::and_of_all))]
pub(crate) fn and(a: &Four) -> Bit
    ensures { result ≡ reduce and_bit Bit.One a.now.bits }
{
    if a.has_zero() {
        Bit::Zero
    } else if a.is_known() {
        Bit::One
    } else {
        Bit::X
    }
}

/// `|a`
#[tactic(auto, using(crate::proofs::ReductionLaws::or_of_all))]
pub(crate) fn or(a: &Four) -> Bit
    ensures { result ≡ reduce or_bit Bit.Zero a.now.bits }
{
    if a.has_one() {
        Bit::One
    } else if a.is_known() {
        Bit::Zero
    } else {
        Bit::X
    }
}

/// `^a`
#[tactic(auto, using(crate::proofs::ReductionLaws::xor_of_all))]
pub(crate) fn xor(a: &Four) -> Bit
    ensures { result ≡ reduce xor_bit Bit.Zero a.now.bits }
{
    if a.is_known() {
        Bit::of(a.known_ones().count_ones() % 2 == 1)
    } else {
        Bit::X
    }
}
