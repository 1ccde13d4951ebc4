//! A closing step.

ghost use Rattle.std.specs.Prelude.{◌≡◌, ◌<◌, ◌||◌, [], IfNone, IfSome, List, flat_map, length, not};
ghost use Rattle.std.specs.List.{All};
ghost use Rattle.body_replay.specs.Store.{Kept};
ghost use Rattle.cover_marks.specs.Marks.{AreMarksOf};
ghost use Rattle.cover_points.specs.Listed.{IsPointList};
ghost use Rattle.design_model.specs.Design.{Design as TheDesign};
ghost use Rattle.design_model.specs.Lawful.{IsLawfulDesign};
ghost use Rattle.cover_points.specs.design_machines.state_machines.Machines.{StateMachines};
ghost use Rattle.design_model.specs.View.{design_view};
ghost use Rattle.dump_check.specs.Checks.{AgreesAt, IsFirstDifference, last_of_each};
ghost use Rattle.index_sets.specs.Rows.{row_at};
ghost use Rattle.replay_model.specs.Step.{Closing};
ghost use Rattle.machine_laws.specs.Followed.{MarksMachines};
ghost use Rattle.step_machines.specs.Marked.{FitsMachines, IsOver as HasRun};
ghost use Rattle.step_marks.specs.Marked.{IsOver, IsSeenAfter};
ghost use Rattle.first_step.specs.step_values.Vectors.{FitsSignals};
ghost use Rattle.first_step.specs.store_knowledge.Knows.{Knows};
ghost use Rattle.step_marks.specs.toggle_laws.Turns.{MarksInTurn};
ghost use Rattle.step_words.specs.Words.{AreWordChanges, FitsRanges, HasWords};
ghost use Rattle.written_words.specs.Same.{FollowsAll, SameUnwritten};
ghost use Rattle.replay_core.specs.Closing.{Closes, Counts, Refutes};
ghost use Rattle.replay_core.specs.Fits.{FitsParts, HaveValues, IsReplayable};
ghost use Rattle.replay_core.specs.Made.{made_with, parts_with};

use crate::clocked::run_woken_clocked;
use crate::room::ReplayRoom;
use crate::runs::run_woken;
use crate::state::ReplayState;
use crate::tables::ReplayTables;
use body_store::Store;
use design_model::Design;
use dump_check::Difference;
use early_sets::Habit;
use first_step::{StepValues, check};
use signal_marks::SignalMarks;
use std::sync::ledger::Ledger;
use step_counts::Steps;
use step_machines::MachineMarks;
use step_marks::mark_moved;
use step_runs::{MarkNotes, words_law};
use step_start::{find_step, settle_step};
use step_words::StepWords;

/// Closes the step that ends at this time, which the dump lists or not, where each signal with a code has a value. The result is the signal that contradicts it,
/// if there is one.
pub(crate) fn run_step<L: Ledger>(
    design: &Design,
    habit: Habit,
    tables: &ReplayTables,
    room: &mut ReplayRoom,
    state: &mut ReplayState,
    time: u64,
    listed: bool,
    steps: &mut Steps<L>,
) -> Option<Difference>
    requires replayable { IsReplayable (design_view design.now) state.old.notes.points.now }
    requires fits { FitsParts (design_view design.now) state.old.notes.points.now tables.now room.old state.old }
    requires none { room.old.step.list.pairs ≡ [] }
    requires none_clocked { room.old.step.clocked.pairs ≡ [] }
    requires closed { HaveValues tables.now.step.codes.items state.old.values.closed }
    requires given { HaveValues tables.now.step.codes.items state.old.values.last }
    ensures fits { FitsParts (design_view design.now) state.old.notes.points.now tables.now room.new state.new }
    ensures none { room.new.step.list.pairs ≡ [] }
    ensures none_clocked { room.new.step.clocked.pairs ≡ [] }
    ensures points { state.new.notes.points.now ≡ state.old.notes.points.now }
    ensures values { state.new.values.last ≡ state.old.values.last }
    ensures closed { IfNone result (state.new.values.closed ≡ state.old.values.last) }
    ensures closes { IfNone result (Closes (made_with (design_view design.now) habit state.old.notes.points.now tables.now) time listed (parts_with room.old state.old) (parts_with room.new state.new)) }
    ensures refutes { IfSome result (Refutes (made_with (design_view design.now) habit state.old.notes.points.now tables.now) time listed (parts_with room.old state.old)) }
    ensures counts { Counts (made_with (design_view design.now) habit state.old.notes.points.now tables.now) time listed (parts_with room.old state.old) steps.old steps.new }
    ensures named { IfSome result (λ found. found.signal < length design.now.signals) }
{
    words_law();
    find_step(&tables.step, &state.values, &mut room.step, &state.store);
    run_woken_clocked(design, habit, tables, room, state, time, steps);
    compare_words(tables, room, state);
    if let Some(found) = settle_step(
        &tables.step,
        room.ran.as_slice(),
        &state.values,
        &mut room.step,
        &mut state.store,
    ) {
        return Some(found);
    }
    run_woken(design, tables, room, state, time, steps);
    if let Some(found) = check_step(tables, room, state) {
        return Some(found);
    }
    mark_step(
        room.step.sets.moves(),
        design,
        &room.step.values,
        &state.store,
        time,
        listed,
        &mut state.seen,
        &mut state.notes,
    );
    mark_machines(
        room.step.sets.moves(),
        design,
        &room.step.values,
        &state.store,
        time,
        listed,
        &mut state.machines,
        &mut state.notes,
    );
    state.values.close();
    None
}

/// Finds the memories of which the Clocked processes have changed a word, and keeps the words for the next step.
fn compare_words(tables: &ReplayTables, room: &mut ReplayRoom, state: &mut ReplayState)
    requires fits { FitsParts (design_view state.old.store.design.now) state.old.notes.points.now tables.now room.old state.old }
    ensures fits { FitsParts (design_view state.old.store.design.now) state.old.notes.points.now tables.now room.new state.new }
    ensures room { room.new ≡ record room.old { words = room.new.words } }
    ensures state { state.new ≡ record state.old { notes = state.new.notes } }
    ensures points { state.new.notes.points.now ≡ state.old.notes.points.now }
    ensures marks { state.new.notes.marks ≡ state.old.notes.marks }
    ensures ranges { state.new.notes.written.ranges ≡ state.old.notes.written.ranges }
    ensures words { (d : TheDesign) (old new : Kept) → Knows d new state.old.store → SameUnwritten d old new state.old.notes.written → HasWords d old state.old.notes.written.ranges room.old.words → HasWords d new state.old.notes.written.ranges room.new.words }
    ensures changes { (d : TheDesign) (old new : Kept) → Knows d new state.old.store → SameUnwritten d old new state.old.notes.written → HasWords d old state.old.notes.written.ranges room.old.words → AreWordChanges d (FollowsAll d state.old.notes.written) old new room.new.words }
{
    compare_noted(&mut room.words, &state.store, &mut state.notes);
}

/// The same of the words that are noted to be written, which are listed no more after it.
fn compare_noted(words: &mut StepWords, store: &Store, notes: &mut MarkNotes)
    requires known { (d : TheDesign) × (k : Kept) × Knows d k store.now }
    requires fits { FitsRanges (design_view store.now.design.now) notes.old.written.ranges words.old }
    requires first { notes.old.written.first ≡ length store.now.design.now.signals }
    ensures fits { FitsRanges (design_view store.now.design.now) notes.old.written.ranges words.new }
    ensures points { notes.new.points.now ≡ notes.old.points.now }
    ensures marks { notes.new.marks ≡ notes.old.marks }
    ensures first { notes.new.written.first ≡ notes.old.written.first }
    ensures ranges { notes.new.written.ranges ≡ notes.old.written.ranges }
    ensures words { (d : TheDesign) (old new : Kept) → Knows d new store.now → SameUnwritten d old new notes.old.written → HasWords d old notes.old.written.ranges words.old → HasWords d new notes.old.written.ranges words.new }
    ensures changes { (d : TheDesign) (old new : Kept) → Knows d new store.now → SameUnwritten d old new notes.old.written → HasWords d old notes.old.written.ranges words.old → AreWordChanges d (FollowsAll d notes.old.written) old new words.new }
{
    words.compare(store, &notes.written);
    notes.written.clear();
}

/// The first signal of which the processes that ran made something else than what the dump says.
fn check_step(
    tables: &ReplayTables,
    room: &mut ReplayRoom,
    state: &ReplayState,
) -> Option<Difference>
    requires fits { FitsParts (design_view state.now.store.design.now) state.now.notes.points.now tables.now room.old state.now }
    requires ran { All (λ p. p < length state.now.store.design.now.processes) room.old.ran.items }
    requires given { HaveValues tables.now.step.codes.items state.now.values.last }
    ensures room { room.new ≡ record room.old { checks = room.new.checks } }
    ensures size { room.new.checks.size ≡ room.old.checks.size }
    ensures some { IfSome result (IsFirstDifference tables.now.step.codes.items state.now.values.last room.old.step.values.made (last_of_each (flat_map (row_at tables.now.checks) room.old.ran.items))) }
    ensures none { IfNone result (All (AgreesAt tables.now.step.codes.items state.now.values.last room.old.step.values.made) (last_of_each (flat_map (row_at tables.now.checks) room.old.ran.items))) }
{
    check(
        room.ran.as_slice(),
        &tables.checks,
        tables.step.codes.as_slice(),
        &state.values,
        &room.step.values,
        &mut room.checks,
    )
}

/// Marks the toggles of what may move, over the step that ends at this time.
fn mark_step(
    moves: &[usize],
    design: &Design,
    values: &StepValues,
    store: &Store,
    time: u64,
    listed: bool,
    seen: &mut SignalMarks,
    notes: &mut MarkNotes,
)
    requires lawful { IsLawfulDesign (design_view design.now) }
    requires same { design_view store.now.design.now ≡ design_view design.now }
    requires known { (d : TheDesign) × (k : Kept) × Knows d k store.now }
    requires fits { FitsSignals (design_view design.now) values.now }
    requires count { length seen.old ≡ length design.now.signals }
    requires listed { (machines : StateMachines) × IsPointList (design_view design.now) machines notes.old.points.now }
    requires marks { AreMarksOf notes.old.points.now notes.old.marks }
    ensures count { length seen.new ≡ length seen.old }
    ensures points { notes.new.points.now ≡ notes.old.points.now }
    ensures written { notes.new.written ≡ notes.old.written }
    ensures marks { AreMarksOf notes.old.points.now notes.new.marks }
    ensures toggles { (st : Closing) → IsOver st notes.old.points.now moves.now time listed store.now values.now seen.old notes.old.marks → MarksInTurn st notes.old.points.now moves.now notes.old.marks.verdicts notes.new.marks.verdicts }
    ensures seen { (st : Closing) → IsOver st notes.old.points.now moves.now time listed store.now values.now seen.old notes.old.marks → IsSeenAfter st notes.old.points.now seen.new notes.new.marks }
{
    mark_moved(
        moves,
        design,
        values,
        store,
        time,
        listed,
        seen,
        &mut notes.marks,
    );
}

/// Marks the states and arcs of the machines of what may move, over the step that ends at this time, and at the first step of the window
/// the states of all machines.
fn mark_machines(
    moves: &[usize],
    design: &Design,
    values: &StepValues,
    store: &Store,
    time: u64,
    listed: bool,
    machines: &mut MachineMarks,
    notes: &mut MarkNotes,
)
    requires design { FitsMachines (design_view design.now) notes.old.points.now machines.old.index }
    requires known { (k : Kept) × Knows (design_view design.now) k store.now }
    requires fits { FitsSignals (design_view design.now) values.now }
    requires marks { AreMarksOf notes.old.points.now notes.old.marks }
    ensures index { machines.new.index ≡ machines.old.index }
    ensures told { machines.new.told ≡ listed }
    ensures points { notes.new.points.now ≡ notes.old.points.now }
    ensures written { notes.new.written ≡ notes.old.written }
    ensures marks { AreMarksOf notes.old.points.now notes.new.marks }
    ensures machines { (st : Closing) → HasRun st moves.now time listed store.now values.now → MarksMachines st notes.old.points.now (not listed || machines.old.told) notes.old.marks.verdicts notes.new.marks.verdicts }
{
    machines.mark(
        moves,
        design,
        notes.points,
        values,
        store,
        time,
        listed,
        &mut notes.marks,
    );
}
