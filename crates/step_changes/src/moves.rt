ghost use Rattle.std.specs.Prelude.{◌≡◌, ◌<◌, ◌≤◌, ℕ, Bool, IsSome, List, length, true};
ghost use Rattle.std.specs.List.{Contains};
ghost use Rattle.step_values.specs.design_model.Design.{Design};
ghost use Rattle.step_values.specs.design_model.Shows.{BoundDump};
ghost use Rattle.early_sets.specs.Rounds.{HasMoves, round_at, writer_at};
ghost use Rattle.early_sets.specs.WakeState.{state_of};
ghost use Rattle.early_sets.specs.declared.habit.Habit.{Habit};
ghost use Rattle.process_order.specs.replay_model.Sets.{AreSets};
ghost use Rattle.step_wakes.specs.replay_sets.SetsOf.{AreChosen, sets_of};
ghost use Rattle.step_values.specs.Loose.{has_code};
ghost use Rattle.step_wakes.specs.Step.{IsOfDesign};
ghost use Rattle.step_wakes.specs.wake_laws.Laws.{habit_of};
ghost use Rattle.step_changes.specs.Changes.{AreChangedSignals, AreSignalsOf, IsDue};

use crate::changes::note_changes;
use code_values::CodeValues;
use early_sets::{Uncounted, Wakes};
use index_sets::{IndexSet, Rows};
use step_wakes::{SignalChange, find};
use value_store::Queue;

/// Finds the signals whose value has changed since the last closed step, and what may move by that. `codes` has the code of
/// each signal, and `signals` the signals of each code; `changes` is scratch room. It takes no memory, and time for the codes
/// that were given a value, the signals that have changed and the inputs that the dump does not give, for what may move, for
/// the processes that this may wake and for what those may write.
pub fn find_moves(
    codes: &[Option<u32>],
    signals: &Rows<u32>,
    values: &CodeValues,
    changed: &mut IndexSet,
    changes: &mut Queue<SignalChange>,
    sets: &mut Wakes,
)
    requires signals { AreSignalsOf codes.now signals.now }
    requires rows { length signals.now ≡ length values.now.last }
    requires below { (s : ℕ) → has_code codes.now s ≡ true → s < changed.old.size }
    requires few { changed.old.size ≤ 65536 }
    requires things { changed.old.size ≤ (state_of sets.old).tables.things }
    requires room { changed.old.size ≤ changes.old.room }
    ensures size { changed.new.size ≡ changed.old.size }
    ensures room { changes.new.room ≡ changes.old.room }
    ensures changed { AreChangedSignals codes.now values.now changed.new.items }
    ensures design { (d : Design) (bound : List Bool) → IsOfDesign d bound (state_of sets.old) → IsOfDesign d bound (state_of sets.new) }
    ensures noted { (x : ℕ) → Contains (state_of sets.new).noted x → x < (state_of sets.new).tables.things }
    ensures derived { (x : ℕ) → Contains (state_of sets.new).derived x → IsSome (writer_at (state_of sets.new) x) }
    ensures rounds { (x : ℕ) → Contains (state_of sets.new).derived x → round_at (state_of sets.new) x ≤ (state_of sets.new).tables.things }
    ensures tables { (state_of sets.new).tables ≡ (state_of sets.old).tables }
    ensures writers { (state_of sets.new).writers ≡ (state_of sets.old).writers }
    ensures moves { HasMoves (state_of sets.new) }
    ensures sets { (d : Design) (dump : BoundDump) (t : ℕ) (h : Habit) (bound : List Bool) (early : ℕ → List ℕ) → IsDue d dump t bound codes.now values.now (state_of sets.old) → AreChosen (state_of sets.new) h early
        → AreSets d (habit_of h) dump t (sets_of (state_of sets.new) early) }
{
    changed.clear();
    values.add_changed(signals, changed);
    changes.clear();
    note_changes(changed, codes, values, changes);
    find(sets, changes.as_slice(), &mut Uncounted);
}
