//! Masks of 128 places.

ghost use Rattle.std.specs.Prelude.{◌≡◌, ◌+◌, ◌-◌, ◌^◌, ◌<◌, ◌≤◌, ◌-ℤ◌, ◌+ℤ◌, ℕ, pos};
ghost use Rattle.four_state.specs.Masks.{is_set, is_set_at};

/// The mask of the lowest `width` places.
pub(crate) fn low_mask(width: u8) -> u128
    requires low { 1 ≤ width }
    requires high { width ≤ 128 }
    ensures { result ≡ 2 ^ width - 1 }
{
    u128::MAX >> (128 - width)
}

/// Whether a mask has a place.
pub(crate) fn has_place(mask: u128, place: u8) -> bool
    requires { place < 128 }
    ensures { result ≡ is_set mask place }
{
    mask >> place & 1 == 1
}

/// The mask with each place `places` places higher; what leaves the 128 places is dropped.
pub(crate) fn raised(mask: u128, places: u128) -> u128
    ensures { (i : ℕ) → i < 128 → is_set result i ≡ is_set_at mask (pos i -ℤ pos places) }
{
    if places < 128 { mask << places } else { 0 }
}

/// The mask with each place `places` places lower.
pub(crate) fn lowered(mask: u128, places: u128) -> u128
    ensures { (i : ℕ) → is_set result i ≡ is_set mask (i + places) }
{
    if places < 128 { mask >> places } else { 0 }
}

/// The mask as seen from a place, which may be below the first one.
pub(crate) fn seen_from(mask: u128, place: i64) -> u128
    ensures { (i : ℕ) → i < 128 → is_set result i ≡ is_set_at mask (place +ℤ pos i) }
{
    if place < 0 {
        raised(mask, place.unsigned_abs() as u128)
    } else {
        lowered(mask, place.unsigned_abs() as u128)
    }
}

/// The mask with its first place put at a place, which may be below the first one.
pub(crate) fn put_at(mask: u128, place: i64) -> u128
    ensures { (i : ℕ) → i < 128 → is_set result i ≡ is_set_at mask (pos i -ℤ place) }
{
    if place < 0 {
        lowered(mask, place.unsigned_abs() as u128)
    } else {
        raised(mask, place.unsigned_abs() as u128)
    }
}
