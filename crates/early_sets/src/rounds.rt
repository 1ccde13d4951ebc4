//! The numbers of the rounds in which things become single.

ghost use Rattle.std.specs.Prelude.{◌≡◌, ◌≤◌, ◌+◌, ℕ, length, slice_index_or};
ghost use Rattle.std.specs.List.{Contains};

use crate::Turns;
use index_sets::IndexSet;

/// Gives a number to each member of a set.
pub(crate) fn number<T: Turns>(set: &IndexSet, round: u32, rounds: &mut Vec<u32>, turns: &mut T)
    requires { set.now.size ≡ length rounds.old.items }
    ensures size { length rounds.new.items ≡ length rounds.old.items }
    ensures members { (x : ℕ) → Contains set.now.items x → slice_index_or rounds.new.items x 0 ≡ round }
    ensures others { (x : ℕ) → (Contains set.now.items x → ⊥) → slice_index_or rounds.new.items x 0 ≡ slice_index_or rounds.old.items x 0 }
    ensures turns { T.counted turns.new ≤ T.counted turns.old + length set.now.items }
{
    for place in 0..set.len() {
        turns.count();
        rounds[set.get(place)] = round;
    }
}
