//! The bits that go from 0 to 1, or from 1 to 0.

ghost use Rattle.std.specs.Prelude.{◌≡◌, ◌<◌, ℕ, Some, is_some, length, not};
ghost use Rattle.four_state.specs.Masks.{is_set};
ghost use Rattle.four_state.specs.declared.bit.Bit.TheVariants.{One, Zero};
ghost use Rattle.bit_changes.specs.Changes.{bit_at, bit_may_be, may_fall, may_rise, surely_falls, surely_rises, surely_same};

use crate::mask::low_mask;
use known_state::Known;

/// The bits of a signal that toggle over a step, as masks of their places.
#[derive(Clone, Copy)]
pub struct Toggles {
    /// Those that surely go from 0 to 1.
    pub rises: u128,
    /// Those that surely go from 1 to 0.
    pub falls: u128,
    /// Those that may go from 0 to 1, the sure ones with them.
    pub may_rise: u128,
    /// Those that may go from 1 to 0, the sure ones with them.
    pub may_fall: u128,
}

impl Toggles {
    /// The toggles from an old value to a new one of the same width.
    pub fn between(old: &Known, new: &Known) -> Self
        requires { length old.now.bits ≡ length new.now.bits }
        ensures rises { (i : ℕ) → i < length old.now.bits → is_set result.rises i ≡ surely_rises (bit_at old.now.bits i) (bit_at new.now.bits i) }
        ensures falls { (i : ℕ) → i < length old.now.bits → is_set result.falls i ≡ surely_falls (bit_at old.now.bits i) (bit_at new.now.bits i) }
        ensures may_rise { (i : ℕ) → i < length old.now.bits → is_set result.may_rise i ≡ may_rise (bit_at old.now.bits i) (bit_at new.now.bits i) }
        ensures may_fall { (i : ℕ) → i < length old.now.bits → is_set result.may_fall i ≡ may_fall (bit_at old.now.bits i) (bit_at new.now.bits i) }
    {
        Toggles {
            rises: old.sure() & zeros(old) & ones(new),
            falls: ones(old) & (new.sure() & zeros(new)),
            may_rise: zeros(old) & (ones(new) | unsure(new)),
            may_fall: (ones(old) | unsure(old)) & zeros(new),
        }
    }
}

/// The bits that are surely 1.
fn ones(value: &Known) -> u128
    ensures { (i : ℕ) → i < length value.now.bits → is_set result i ≡ surely_same (bit_at value.now.bits i) (Some One) }
{
    value.value().known_ones()
}

/// The bits that are 0 or not sure.
fn zeros(value: &Known) -> u128
    ensures { (i : ℕ) → i < length value.now.bits → is_set result i ≡ bit_may_be (bit_at value.now.bits i) Zero }
{
    value.value().known_zeros()
}

/// The bits that are not sure.
fn unsure(value: &Known) -> u128
    ensures { (i : ℕ) → i < length value.now.bits → is_set result i ≡ not (is_some (bit_at value.now.bits i)) }
{
    low_mask(value.width()) & !value.sure()
}
