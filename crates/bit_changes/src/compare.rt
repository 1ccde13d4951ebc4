//! Where two vectors differ.

ghost use Rattle.std.specs.Prelude.{◌≡◌, ◌<◌, ℕ, length, not};
ghost use Rattle.four_state.specs.Masks.{is_set};
ghost use Rattle.four_state.specs.Vector.{same_bit};
ghost use Rattle.bit_changes.specs.Changes.{bit_at, or_zero, surely_differ, surely_same};

use crate::mask::low_mask;
use known_state::Known;

/// The places at which two vectors of equal widths surely differ: both bits are sure there, and they are not the same.
pub fn differing(a: &Known, b: &Known) -> u128
    requires { length a.now.bits ≡ length b.now.bits }
    ensures { (i : ℕ) → i < length a.now.bits → is_set result i ≡ surely_differ (bit_at a.now.bits i) (bit_at b.now.bits i) }
{
    a.sure() & b.sure() & unlike(a, b)
}

/// The places at which two vectors of equal widths are not surely the same.
pub fn unsteady(a: &Known, b: &Known) -> u128
    requires { length a.now.bits ≡ length b.now.bits }
    ensures { (i : ℕ) → i < length a.now.bits → is_set result i ≡ not (surely_same (bit_at a.now.bits i) (bit_at b.now.bits i)) }
{
    low_mask(a.width()) & !(a.sure() & b.sure()) | unlike(a, b)
}

/// The places at which two vectors of equal widths differ, with 0 where they are not sure.
fn unlike(a: &Known, b: &Known) -> u128
    requires { length a.now.bits ≡ length b.now.bits }
    ensures { (i : ℕ) → i < length a.now.bits → is_set result i ≡ not (same_bit (or_zero (bit_at a.now.bits i)) (or_zero (bit_at b.now.bits i))) }
{
    let (a, b) = (a.value(), b.value());
    (a.ones() ^ b.ones()) | (a.strange() ^ b.strange())
}
