//! The runs of the processes of a step.

ghost use Rattle.std.specs.Prelude.{◌≡◌, ◌<◌, ◌+◌, [], length, map};
ghost use Rattle.std.specs.List.{All};
ghost use Rattle.design_model.specs.Design.{IsClocked, process_at};
ghost use Rattle.design_model.specs.View.{design_view};
ghost use Rattle.early_sets.specs.WakeState.{state_of};
ghost use Rattle.replay_model.specs.Step.{Closing, all_run, clocked_run, settle_start};
ghost use Rattle.step_start.specs.step_parts.AtStep.{AtStep};
ghost use Rattle.step_runs.specs.Runs.{IsRunOf};
ghost use Rattle.first_step.specs.settling.Wakes.{HasWordChanges};
ghost use Rattle.replay_core.specs.Fits.{FitsParts, IsReplayable};

use crate::room::ReplayRoom;
use crate::state::ReplayState;
use crate::tables::ReplayTables;
use design_model::Design;
use first_step::{Found, ProcessRows};
use std::sync::ledger::Ledger;
use step_counts::Steps;
use step_runs::run_all;

/// What the runs of processes take of these tables.
pub(crate) fn process_rows<'b>(design: &'b Design, tables: &'b ReplayTables) -> ProcessRows<'b>
    ensures design { result.design.now ≡ design.now }
    ensures targets { result.targets.now ≡ tables.now.step.targets }
    ensures written { result.written.now ≡ tables.now.step.written }
    ensures wakes { result.wakes.now ≡ tables.now.wakes }
    ensures codes { result.codes.now ≡ tables.now.step.codes.items }
{
    ProcessRows {
        design,
        targets: &tables.step.targets,
        written: &tables.step.written,
        wakes: &tables.wakes,
        codes: tables.step.codes.as_slice(),
    }
}

/// Runs the processes of the wake list, each once in its order, which is one step each.
pub(crate) fn run_woken<L: Ledger>(
    design: &Design,
    tables: &ReplayTables,
    room: &mut ReplayRoom,
    state: &mut ReplayState,
    time: u64,
    steps: &mut Steps<L>,
)
    requires replayable { IsReplayable (design_view design.now) state.old.notes.points.now }
    requires fits { FitsParts (design_view design.now) state.old.notes.points.now tables.now room.old state.old }
    requires settles { All (λ q. IsClocked (process_at (design_view design.now) q.0) → ⊥) room.old.step.list.pairs }
    ensures fits { FitsParts (design_view design.now) state.old.notes.points.now tables.now room.new state.new }
    ensures clocked { room.new.step.clocked ≡ room.old.step.clocked }
    ensures none { room.new.step.list.pairs ≡ [] }
    ensures within { All (λ p. p < length design.now.processes) room.new.ran.items }
    ensures ran { room.new.ran.items ≡ map (λ q. q.0) room.old.step.list.pairs }
    ensures sets { room.new.step.sets ≡ room.old.step.sets }
    ensures values { state.new.values ≡ state.old.values }
    ensures seen { state.new.seen ≡ state.old.seen }
    ensures words { room.new.words ≡ room.old.words }
    ensures ranges { state.new.notes.written.ranges ≡ state.old.notes.written.ranges }
    ensures machines { state.new.machines ≡ state.old.machines }
    ensures steps { steps.new ≡ steps.old + length room.old.step.list.pairs }
    ensures step { (st : Closing)
        → IsRunOf st state.old.notes.points.now tables.now.step.order (length tables.now.processes.order.items) (map (λ q. q.0) room.old.step.list.pairs) tables.now.wakes tables.now.step.codes.items room.old.step.changed.items time
        → HasWordChanges st (settle_start st (clocked_run st)).kept room.old.words
        → AtStep st state.old.notes.points.now (settle_start st (clocked_run st)) state.old.store room.old.step.values (state_of room.old.step.sets) state.old.acted.items state.old.notes.marks
        → AtStep st state.old.notes.points.now (all_run st) state.new.store room.new.step.values (state_of room.new.step.sets) state.new.acted.items state.new.notes.marks }
{
    let rows = process_rows(design, tables);
    let found = Found {
        sets: &room.step.sets,
        changed: &room.step.changed,
        words: &room.words,
        time,
    };
    run_all(
        &mut room.step.list,
        &tables.step.order,
        tables.processes.order.len(),
        &mut room.ran,
        &mut state.store,
        &mut room.step.values,
        state.acted.as_mut_slice(),
        &rows,
        &found,
        &mut room.scratch,
        &mut state.notes,
        steps,
    );
}
