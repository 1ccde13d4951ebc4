//! The first step of a stretch.

ghost use Rattle.std.specs.Prelude.{◌≡◌, ◌+◌, ◌<◌, ◌≤◌, [], IfNone, IfSome, ℕ, length};
ghost use Rattle.design_model.specs.View.{design_view};
ghost use Rattle.early_sets.specs.declared.habit.Habit.{Habit};
ghost use Rattle.replay_core.specs.Closing.{RefutesFirst, Starts};
ghost use Rattle.replay_core.specs.Fits.{FitsParts, HaveValues, IsForgotten, IsReplayable};
ghost use Rattle.replay_core.specs.Made.{made_with, parts_with};

use crate::room::ReplayRoom;
use crate::runs::process_rows;
use crate::state::ReplayState;
use crate::tables::ReplayTables;
use body_replay::runs_lawful;
use design_model::Design;
use dump_check::Difference;
use first_step::begin_first;
use std::sync::ledger::Ledger;
use step_counts::Steps;
use step_runs::words_law;

/// Closes the first step of a stretch, where each signal with a code has a value. The result is the signal that contradicts it, if
/// there is one.
pub(crate) fn run_first_step<L: Ledger>(
    design: &Design,
    tables: &ReplayTables,
    room: &mut ReplayRoom,
    state: &mut ReplayState,
    steps: &mut Steps<L>,
) -> Option<Difference>
    requires replayable { IsReplayable (design_view design.now) state.old.notes.points.now }
    requires fits { FitsParts (design_view design.now) state.old.notes.points.now tables.now room.old state.old }
    requires none { room.old.step.list.pairs ≡ [] }
    requires none_clocked { room.old.step.clocked.pairs ≡ [] }
    requires forgotten { IsForgotten (design_view design.now) room.old state.old }
    requires given { HaveValues tables.now.step.codes.items state.old.values.last }
    ensures fits { FitsParts (design_view design.now) state.old.notes.points.now tables.now room.new state.new }
    ensures none { room.new.step.list.pairs ≡ [] }
    ensures none_clocked { room.new.step.clocked.pairs ≡ [] }
    ensures points { state.new.notes.points.now ≡ state.old.notes.points.now }
    ensures values { state.new.values.last ≡ state.old.values.last }
    ensures closed { state.new.values.closed ≡ state.old.values.last }
    ensures starts { IfNone result ((h : Habit) (t : ℕ) → Starts (made_with (design_view design.now) h state.old.notes.points.now tables.now) t (parts_with room.old state.old) (parts_with room.new state.new)) }
    ensures refutes { IfSome result (λ found. (h : Habit) (t : ℕ) → RefutesFirst (made_with (design_view design.now) h state.old.notes.points.now tables.now) t (parts_with room.old state.old) found) }
    ensures named { IfSome result (λ found. found.signal < length design.now.signals) }
    ensures steps { steps.new ≤ steps.old + length design.now.processes }
{
    runs_lawful();
    words_law();
    let rows = process_rows(design, tables);
    let found = begin_first(
        &mut state.store,
        &mut room.step.values,
        &state.values,
        state.acted.as_slice(),
        &rows,
        &tables.processes,
        &tables.checks,
        &mut room.checks,
        &mut room.ran,
        &mut room.scratch,
        steps,
    );
    state.values.close();
    found
}
