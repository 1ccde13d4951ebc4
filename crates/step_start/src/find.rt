ghost use Rattle.std.specs.Prelude.{◌≡◌, ◌<◌, ◌≤◌, [], ℕ, Bool, IsSome, List, filter, length, map};
ghost use Rattle.std.specs.List.{Contains};
ghost use Rattle.design_model.specs.Design.{Design};
ghost use Rattle.design_model.specs.View.{design_view};
ghost use Rattle.body_replay.specs.Store.{Kept};
ghost use Rattle.early_sets.specs.Rounds.{HasMoves, round_at, writer_at};
ghost use Rattle.early_sets.specs.WakeState.{state_of};
ghost use Rattle.run_order.specs.Ranked.{AreRanksOf};
ghost use Rattle.step_parts.specs.replay_sets.SetsOf.{AreChosen};
ghost use Rattle.step_parts.specs.step_changes.Changes.{AreChangedSignals};
ghost use Rattle.step_parts.specs.Due.{Due, HasFound, IsDueStep};
ghost use Rattle.step_parts.specs.step_wakes.Step.{IsOfDesign};
ghost use Rattle.step_parts.specs.store_knowledge.Knows.{Knows};
ghost use Rattle.wake_list.specs.Members.{has};
ghost use Rattle.step_start.specs.Fits.{FitsStep};

use crate::{StepRoom, StepTables};
use body_store::Store;
use code_values::CodeValues;
use step_parts::find_moves;

/// Finds what changes from the last closed step to the values that the dump gave last, and what may move by that. What is known of
/// that is set aside, and the Clocked that this wakes are put on their list, in their order. It only reads the store. It takes no
/// memory, and time for the codes that were given a value, the signals that have changed, what may move, and the processes that
/// this wakes, with the logarithm of their count.
pub fn find_step(tables: &StepTables, values: &CodeValues, room: &mut StepRoom, store: &Store)
    requires fits { FitsStep (design_view store.now.design.now) tables.now room.old values.now }
    requires empty { room.old.clocked.pairs ≡ [] }
    requires known { (d : Design) × (k : Kept) × Knows d k store.now }
    ensures fits { FitsStep (design_view store.now.design.now) tables.now room.new values.now }
    ensures inputs { (d : Design) (flags : List Bool) → IsOfDesign d flags (state_of room.old.sets) → IsOfDesign d flags (state_of room.new.sets) }
    ensures writers { (state_of room.new.sets).writers ≡ (state_of room.old.sets).writers }
    ensures changed { AreChangedSignals tables.now.codes.items values.now room.new.changed.items }
    ensures list { room.new.list ≡ room.old.list }
    ensures moves { HasMoves (state_of room.new.sets) }
    ensures derived { (x : ℕ) → Contains (state_of room.new.sets).derived x → IsSome (writer_at (state_of room.new.sets) x) }
    ensures rounds { (x : ℕ) → Contains (state_of room.new.sets).derived x → round_at (state_of room.new.sets) x ≤ (state_of room.new.sets).tables.things }
    ensures noted { (x : ℕ) → Contains (state_of room.new.sets).noted x → x < (state_of room.new.sets).tables.things }
    ensures listed { (order : List ℕ) → AreRanksOf order (length (design_view store.now.design.now).processes) tables.now.clocked
        → map (λ q. q.0) room.new.clocked.pairs ≡ filter (λ p. has p (state_of room.new.sets).woken) order }
    ensures found { (due : Due) (early : ℕ → List ℕ) → IsDueStep due tables.now.codes.items tables.now.order tables.now.clocked (state_of room.old.sets) values.now store.now
        → AreChosen (state_of room.new.sets) due.habit early → HasFound due (state_of room.new.sets) early (map (λ q. q.0) room.new.clocked.pairs) room.new.values }
{
    find_moves(
        tables.codes.as_slice(),
        &tables.signals,
        values,
        &mut room.changed,
        &mut room.changes,
        &mut room.sets,
    );
    tables.clocked.fill(room.sets.woken(), &mut room.clocked);
    room.values.open(store, room.sets.moves());
}
