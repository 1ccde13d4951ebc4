ghost use Rattle.std.specs.Prelude.{◌≡◌, ◌<◌, ◌≤◌, ◌+◌, [], ℕ, List, length, true};
ghost use Rattle.design_model.specs.Design.{Design, IsClocked, process_at};
ghost use Rattle.design_model.specs.Lawful.{IsLawfulDesign};
ghost use Rattle.design_model.specs.View.{design_view};
ghost use Rattle.body_replay.specs.Contract.{Note};
ghost use Rattle.body_replay.specs.Store.{Kept};
ghost use Rattle.settled_runs.specs.block_runs.Notes.{AddsNotes};
ghost use Rattle.early_sets.specs.WakeState.{state_of};
ghost use Rattle.index_sets.specs.Rows.{row_at};
ghost use Rattle.step_parts.specs.replay_model.Step.{Closing, Working, is_touched, run_settling};
ghost use Rattle.settled_runs.specs.store_knowledge.Knows.{Knows};
ghost use Rattle.settled_targets.specs.step_values.Vectors.{FitsSignals};
ghost use Rattle.step_words.specs.Words.{IsOfMemories};
ghost use Rattle.settling.specs.Runs.{AtPoint, HasRows, IsStepOf, outcome_at};

use crate::acting::{is_kept, result_holds};
use crate::change::certainty;
use crate::settled::run_saved;
use crate::{Found, ProcessRows, Scratch};
use body_replay::runs_lawful;
use body_store::Store;
use process_targets::settled_law;
use settled_runs::BlockNotes;
use settled_targets::StepValues;
use std::sync::ledger::Ledger;
use step_counts::Steps;

/// Runs an Assign or Comb that watches something that may move, which is one step. What it makes of the signals that the dump
/// does not have is kept where it is ordered, and else nothing is known of that; what it makes of the others is what was made of them
/// in the step. Of a Comb this holds where it has surely acted in the window, which is kept in `acted`. Its notes go to the sink. It takes
/// time for what the process watches, its targets and its body, and no memory.
pub fn run<N: BlockNotes, L: Ledger>(
    store: &mut Store,
    values: &mut StepValues,
    acted: &mut [bool],
    rows: &ProcessRows,
    found: &Found,
    process: usize,
    is_ordered: bool,
    scratch: &mut Scratch,
    notes: &mut N,
    steps: &mut Steps<L>,
)
    requires same { design_view store.old.design.now ≡ design_view rows.now.design.now }
    requires lawful { IsLawfulDesign (design_view rows.now.design.now) }
    requires place { process < length rows.now.design.now.processes }
    requires settles { IsClocked (process_at (design_view rows.now.design.now) process) → ⊥ }
    requires rows { HasRows (design_view rows.now.design.now) rows.now.targets.now rows.now.written.now rows.now.wakes.now }
    requires known { (d : Design) × (k : Kept) × Knows d k store.old }
    requires fits { FitsSignals (design_view store.old.design.now) values.old }
    requires flags { length acted.old ≡ length rows.now.design.now.processes }
    requires things { length rows.now.design.now.signals + length rows.now.design.now.memories ≤ (state_of found.now.sets.now).tables.things }
    requires memories { IsOfMemories (design_view rows.now.design.now) found.now.words.now }
    requires changed { length rows.now.design.now.signals ≤ found.now.changed.now.size }
    requires room { length (row_at rows.now.targets.now process) ≤ length scratch.old.saved }
    requires none { scratch.old.pieces.items ≡ [] }
    requires parts { 128 ≤ scratch.old.pieces.room }
    ensures same { design_view store.new.design.now ≡ design_view rows.now.design.now }
    ensures known { (d : Design) × (k : Kept) × Knows d k store.new }
    ensures fits { FitsSignals (design_view store.new.design.now) values.new }
    ensures flags { length acted.new ≡ length acted.old }
    ensures step { (st : Closing) (w : Working) → AtPoint st w store.old values.old found.now.words.now (state_of found.now.sets.now) acted.old → IsStepOf st process rows.now.wakes.now rows.now.codes.now found.now.changed.now.items found.now.time → is_touched st process ≡ true → AtPoint st (run_settling st is_ordered process w) store.new values.new found.now.words.now (state_of found.now.sets.now) acted.new }
    ensures notes { (st : Closing) (w : Working) → AtPoint st w store.old values.old found.now.words.now (state_of found.now.sets.now) acted.old → IsStepOf st process rows.now.wakes.now rows.now.codes.now found.now.changed.now.items found.now.time → AddsNotes N.noted notes.old (outcome_at st w process).notes notes.new }
    ensures took { (ns : List Note) × AddsNotes N.noted notes.old ns notes.new }
    ensures room { length scratch.new.saved ≡ length scratch.old.saved }
    ensures pieces { scratch.new.pieces ≡ scratch.old.pieces }
    ensures steps { steps.new ≡ steps.old + 1 }
{
    runs_lawful();
    settled_law();
    let wakes = rows.wakes.row(process);
    let how = certainty(values, store, found.sets, found.words, wakes, found.time);
    run_saved(store, rows, process, how, scratch, notes, steps);
    let processes = rows.design.processes.as_slice();
    let holds = result_holds(
        acted,
        process,
        &processes[process],
        how,
        wakes,
        rows.design.signals.len(),
        found.changed,
    );
    scratch.saved.put_back(
        store,
        values,
        rows.targets.row(process),
        rows.codes,
        is_kept(is_ordered, holds),
        holds,
    );
}
