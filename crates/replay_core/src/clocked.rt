//! The runs of the Clocked processes of a step.

ghost use Rattle.std.specs.Prelude.{◌≡◌, ◌+◌, ◌<◌, ◌↔◌, [], ℕ, List, length, map, true};
ghost use Rattle.std.specs.List.{All};
ghost use Rattle.body_replay.specs.Replay.{flush};
ghost use Rattle.chosen_early.specs.Shared.{IsSameButEarly};
ghost use Rattle.design_model.specs.Design.{AreDistinct, In};
ghost use Rattle.design_model.specs.View.{design_view};
ghost use Rattle.early_sets.specs.WakeState.{state_of};
ghost use Rattle.first_step.specs.mark_laws.Marked.{AreVerdicts};
ghost use Rattle.first_step.specs.replay_sets.SetsOf.{AreChosen};
ghost use Rattle.first_step.specs.store_knowledge.Knows.{Knows};
ghost use Rattle.replay_model.specs.Step.{Closing, clocked_run};
ghost use Rattle.step_clocked.specs.Runs.{AreClockedOf, AreStepSets, HasWoken, IsClockedStep, is_woken};
ghost use Rattle.written_words.specs.Same.{SameUnwritten};
ghost use Rattle.replay_core.specs.Fits.{FitsParts, HaveValues, IsReplayable};

use crate::room::ReplayRoom;
use crate::state::ReplayState;
use crate::tables::ReplayTables;
use design_model::Design;
use early_sets::Habit;
use std::sync::ledger::Ledger;
use step_clocked::{Given, run_clocked};
use step_counts::Steps;

/// Runs the Clocked processes that are woken, first the clean ones in order of their rounds and then the others, which is one step
/// each, and makes what they queue.
pub(crate) fn run_woken_clocked<L: Ledger>(
    design: &Design,
    habit: Habit,
    tables: &ReplayTables,
    room: &mut ReplayRoom,
    state: &mut ReplayState,
    time: u64,
    steps: &mut Steps<L>,
)
    requires replayable { IsReplayable (design_view design.now) state.old.notes.points.now }
    requires fits { FitsParts (design_view design.now) state.old.notes.points.now tables.now room.old state.old }
    requires below { All (λ q. q.0 < length design.now.processes) room.old.step.clocked.pairs }
    requires sets { AreStepSets (design_view design.now) tables.now.step.codes.items (state_of room.old.step.sets) }
    requires closed { HaveValues tables.now.step.codes.items state.old.values.closed }
    requires given { HaveValues tables.now.step.codes.items state.old.values.last }
    ensures fits { FitsParts (design_view design.now) state.old.notes.points.now tables.now room.new state.new }
    ensures none { room.new.step.clocked.pairs ≡ [] }
    ensures step { room.new.step ≡ record room.old.step { clocked = room.new.step.clocked; sets = room.new.step.sets } }
    ensures members { (p : ℕ) → In p room.new.ran.items ↔ (In p (map (λ q. q.0) room.old.step.clocked.pairs) × (is_woken (state_of room.old.step.sets) p ≡ true)) }
    ensures once { AreDistinct room.new.ran.items }
    ensures within { All (λ p. p < length design.now.processes) room.new.ran.items }
    ensures rest { IsSameButEarly (state_of room.old.step.sets) (state_of room.new.step.sets) }
    ensures values { state.new.values ≡ state.old.values }
    ensures acted { state.new.acted ≡ state.old.acted }
    ensures seen { state.new.seen ≡ state.old.seen }
    ensures machines { state.new.machines ≡ state.old.machines }
    ensures points { state.new.notes.points.now ≡ state.old.notes.points.now }
    ensures words { room.new.words ≡ room.old.words }
    ensures ranges { state.new.notes.written.ranges ≡ state.old.notes.written.ranges }
    ensures steps { steps.new ≡ steps.old + length room.new.ran.items }
    ensures chosen { HasWoken (state_of room.old.step.sets) (map (λ q. q.0) room.old.step.clocked.pairs) → (early : ℕ → List ℕ) × AreChosen (state_of room.old.step.sets) habit early }
    ensures knows { (st : Closing) → IsClockedStep st state.old.notes.points.now (state_of room.old.step.sets) habit tables.now.step.codes.items state.old.values time → AreClockedOf st (map (λ q. q.0) room.old.step.clocked.pairs)
        → Knows st.design st.start.kept state.old.store → AreVerdicts st.design state.old.notes.points.now st.start.notes state.old.notes.marks.verdicts
        → Knows st.design (flush (clocked_run st).kept (clocked_run st).queue) state.new.store }
    ensures verdicts { (st : Closing) → IsClockedStep st state.old.notes.points.now (state_of room.old.step.sets) habit tables.now.step.codes.items state.old.values time → AreClockedOf st (map (λ q. q.0) room.old.step.clocked.pairs)
        → Knows st.design st.start.kept state.old.store → AreVerdicts st.design state.old.notes.points.now st.start.notes state.old.notes.marks.verdicts
        → AreVerdicts st.design state.old.notes.points.now (clocked_run st).notes state.new.notes.marks.verdicts }
    ensures unwritten { (st : Closing) → IsClockedStep st state.old.notes.points.now (state_of room.old.step.sets) habit tables.now.step.codes.items state.old.values time → AreClockedOf st (map (λ q. q.0) room.old.step.clocked.pairs)
        → Knows st.design st.start.kept state.old.store → AreVerdicts st.design state.old.notes.points.now st.start.notes state.old.notes.marks.verdicts
        → SameUnwritten st.design st.start.kept (flush (clocked_run st).kept (clocked_run st).queue) state.new.notes.written }
{
    let given = Given {
        design,
        written: &tables.step.written,
        codes: tables.step.codes.as_slice(),
        values: &state.values,
        habit,
        time,
    };
    run_clocked(
        &mut room.step.clocked,
        &mut room.by_round,
        &mut room.later,
        &mut room.ran,
        &mut room.step.sets,
        &mut state.store,
        &given,
        &mut room.scratch.pieces,
        &mut state.notes,
        steps,
    );
}
