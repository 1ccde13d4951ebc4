//! The sets of a step from the signals that change in it.

ghost use Rattle.std.specs.Prelude.{◌≡◌, ◌<◌, ◌≤◌, ◌+◌, ℕ, Bool, IsSome, List, false, slice_set, true};
ghost use Rattle.std.specs.List.{All, Contains};
ghost use Rattle.design_model.specs.Design.{Design};
ghost use Rattle.early_sets.specs.Adds.{Adds};
ghost use Rattle.early_sets.specs.Edges.{edges_between};
ghost use Rattle.early_sets.specs.Rounds.{round_at, writer_at};
ghost use Rattle.early_sets.specs.Settled.{HasSettled};
ghost use Rattle.early_sets.specs.WakeState.{is_told, state_of};
ghost use Rattle.step_wakes.specs.Step.{IsOfDesign, StepSets, note_turns};

use early_sets::{Turns, Wakes};
use four_state::Bit;

/// A signal that changes in a step: an input, or an event signal that may become single.
#[derive(Clone, Copy)]
pub struct SignalChange {
    /// The signal.
    pub signal: u32,
    /// Its lowest bit before the step.
    pub old: Bit,
    /// Its lowest bit after the step.
    pub new: Bit,
}

/// Begins a step with the signals that change in it, and finds what may move, in the last of its rounds. It takes no
/// memory, and time for the inputs that are missing and the changes, and in each round for what may move, the processes
/// that may wake and what those may write: `turns` counts the turns of its loops.
pub fn find<T: Turns>(wakes: &mut Wakes, changes: &[SignalChange], turns: &mut T)
    requires { All (λ change. change.signal < (state_of wakes.old).tables.things) changes.now }
    ensures design { (d : Design) (bound : List Bool) → IsOfDesign d bound (state_of wakes.old) → IsOfDesign d bound (state_of wakes.new) }
    ensures tables { (state_of wakes.new).tables ≡ (state_of wakes.old).tables }
    ensures writers { (state_of wakes.new).writers ≡ (state_of wakes.old).writers }
    ensures noted { (x : ℕ) → Contains (state_of wakes.new).noted x → x < (state_of wakes.new).tables.things }
    ensures derived { (x : ℕ) → Contains (state_of wakes.new).derived x → IsSome (writer_at (state_of wakes.new) x) }
    ensures rounds { (x : ℕ) → Contains (state_of wakes.new).derived x → round_at (state_of wakes.new) x ≤ (state_of wakes.new).tables.things }
    ensures sets { (d : Design) (bound : List Bool) → IsOfDesign d bound (state_of wakes.old) → StepSets d bound changes.now (state_of wakes.new) }
    ensures turns { HasSettled (state_of wakes.new) (T.counted turns.old + note_turns changes.now (state_of wakes.new)) (T.counted turns.new) }
{
    wakes.clear(turns);
    for change in changes {
        turns.count();
        tell(wakes, change);
    }
    wakes.settle(turns);
}

/// Reports the change of a signal.
fn tell(wakes: &mut Wakes, change: &SignalChange)
    requires { change.now.signal < (state_of wakes.old).tables.things }
    ensures rest { state_of wakes.new ≡ record (state_of wakes.old) { own = slice_set (state_of wakes.old).own change.now.signal (edges_between change.now.old change.now.new); noted = (state_of wakes.new).noted; changed = (state_of wakes.new).changed } }
    ensures noted { Adds (λ x. (is_told (state_of wakes.old) change.now.signal ≡ true) × (change.now.signal ≡ x)) (state_of wakes.old).noted (state_of wakes.new).noted }
    ensures changed { Adds (λ x. (is_told (state_of wakes.old) change.now.signal ≡ false) × (change.now.signal ≡ x)) (state_of wakes.old).changed (state_of wakes.new).changed }
{
    wakes.note(change.signal, change.old, change.new);
}
