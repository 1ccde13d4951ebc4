//! Masks of places that lie one beside the other.

ghost use Rattle.std.specs.Prelude.{◌≡◌, ◌+◌, ◌≤◌, ◌&&◌, ℕ, nat_le, nat_lt};
ghost use Rattle.four_state.specs.Masks.{is_set};

/// The mask of so many places from a first one up.
pub fn places_from(first: u8, width: u8) -> u128
    requires some { 1 ≤ width }
    requires inside { first + width ≤ 128 }
    ensures { (i : ℕ) → is_set result i ≡ (nat_le first i && nat_lt i (first + width)) }
{
    (u128::MAX >> (128 - width)) << first
}
