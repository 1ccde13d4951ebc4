//! Vectors of which some bits are taken out, or taken from another one.

ghost use Rattle.std.specs.Prelude.{◌≡◌, ◌<◌, ◌^◌, ℕ, None, false, if◌then◌else◌, length};
ghost use Rattle.four_state.specs.Masks.{is_set};
ghost use Rattle.known_state.specs.Partly.{blame_of};
ghost use Rattle.bit_changes.specs.Changes.{bit_at};

use crate::mask::low_mask;
use four_state::Four;
use known_state::Known;

/// The vector with the bits at the places of the mask not sure. The thing is to blame for what is not sure.
pub fn forgotten(value: &Known, mask: u128, blame: u32) -> Known
    requires { mask < 2 ^ length value.now.bits }
    ensures width { length result.bits ≡ length value.now.bits }
    ensures bits { (i : ℕ) → i < length value.now.bits → bit_at result.bits i ≡ (if is_set mask i then None else bit_at value.now.bits i) }
    ensures signed { result.signed ≡ value.now.signed }
    ensures blame { result.blame ≡ blame_of result.bits blame }
{
    let kept = value.value();
    let other = Four::make(
        kept.width(),
        kept.is_signed(),
        kept.ones() ^ mask,
        kept.strange(),
    );
    value.join(&Known::whole(other), blame)
}

/// The vector with the bits of another one of the same width at the places of the mask. The thing is to blame for what is
/// not sure.
pub fn merged(old: &Known, new: &Known, mask: u128, blame: u32) -> Known
    requires width { length old.now.bits ≡ length new.now.bits }
    ensures width { length result.bits ≡ length old.now.bits }
    ensures bits { (i : ℕ) → i < length old.now.bits → bit_at result.bits i ≡ (if is_set mask i then bit_at new.now.bits i else bit_at old.now.bits i) }
    ensures signed { result.signed ≡ old.now.signed }
    ensures blame { result.blame ≡ blame_of result.bits blame }
{
    let (before, after) = (old.value(), new.value());
    let ones = before.ones() & !mask | after.ones() & mask;
    let strange = before.strange() & !mask | after.strange() & mask;
    let sure = old.sure() & !mask | new.sure() & mask;
    let whole = Four::make(before.width(), before.is_signed(), ones, strange);
    forgotten(
        &Known::whole(whole),
        low_mask(before.width()) & !sure,
        blame,
    )
}
