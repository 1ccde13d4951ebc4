//! States with one value.

ghost use Rattle.std.specs.Prelude.{◌≡◌, ◌↔◌, ◌<◌, ℕ, IfNone, IfSome, IsTrue, length};
ghost use Rattle.std.specs.List.{All};
ghost use Rattle.four_state.specs.Vector.{Vector};
ghost use Rattle.state_machines.specs.Same.{HasBefore, IsFirstSame};

use four_state::{CaseKind, Four};

/// The place of the first value, all of one width, that is the same as an earlier one.
pub fn first_same(values: &[Four], width: u8) -> Option<usize>
    requires { All (λ (v : Vector). length v.bits ≡ width) values.now }
    ensures some { IfSome result (IsFirstSame values.now) }
    ensures none { IfNone result ((k : ℕ) → k < length values.now → HasBefore values.now k → ⊥) }
{
    for place in 0..values.len() {
        if has_before(values, width, place) {
            return Some(place);
        }
    }
    None
}

/// Whether the value at a place is the same as an earlier one.
fn has_before(values: &[Four], width: u8, place: usize) -> bool
    requires widths { All (λ (v : Vector). length v.bits ≡ width) values.now }
    requires listed { place < length values.now }
    ensures { IsTrue result ↔ HasBefore values.now place }
{
    for earlier in 0..place {
        if Four::label(CaseKind::Exact, &values[earlier], &values[place]) {
            return true;
        }
    }
    false
}
