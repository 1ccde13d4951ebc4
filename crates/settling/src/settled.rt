//! The run of a process on what is known, with its targets saved.

ghost use Rattle.std.specs.Prelude.{◌≡◌, ◌<◌, ◌≤◌, ◌+◌, [], ℕ, length};
ghost use Rattle.design_model.specs.Design.{Design, IsClocked, process_at};
ghost use Rattle.design_model.specs.Lawful.{IsLawfulDesign};
ghost use Rattle.design_model.specs.View.{design_view, process_view};
ghost use Rattle.body_replay.specs.Runs.{runs_of};
ghost use Rattle.body_replay.specs.Store.{Kept};
ghost use Rattle.settled_runs.specs.block_runs.Notes.{AddsNotes, way_of};
ghost use Rattle.index_sets.specs.Rows.{row_at};
ghost use Rattle.step_parts.specs.replay_model.Step.{is_comb as is_comb_of, plain_store, settled_kept};
ghost use Rattle.settled_runs.specs.store_knowledge.Knows.{Knows};
ghost use Rattle.settled_targets.specs.Saved.{AreSaved};
ghost use Rattle.settling.specs.Runs.{HasRows};

use crate::{ProcessRows, Scratch};
use body_store::Store;
use design_model::Process;
use settled_runs::{BlockNotes, Certainty, run_settled};
use settled_targets::hide_targets;
use std::sync::ledger::Ledger;
use step_counts::Steps;

/// Runs an Assign or Comb in this way, which is one step: what is kept of its targets is saved, and a Comb meets them as
/// unknown.
pub(crate) fn run_saved<N: BlockNotes, L: Ledger>(
    store: &mut Store,
    rows: &ProcessRows,
    process: usize,
    how: Certainty,
    scratch: &mut Scratch,
    notes: &mut N,
    steps: &mut Steps<L>,
)
    requires same { design_view store.old.design.now ≡ design_view rows.now.design.now }
    requires lawful { IsLawfulDesign (design_view rows.now.design.now) }
    requires place { process < length rows.now.design.now.processes }
    requires settles { IsClocked (process_at (design_view rows.now.design.now) process) → ⊥ }
    requires rows { HasRows (design_view rows.now.design.now) rows.now.targets.now rows.now.written.now rows.now.wakes.now }
    requires known { (d : Design) × (k : Kept) × Knows d k store.old }
    requires room { length (row_at rows.now.targets.now process) ≤ length scratch.old.saved }
    requires none { scratch.old.pieces.items ≡ [] }
    requires parts { 128 ≤ scratch.old.pieces.room }
    ensures design { design_view store.new.design.now ≡ design_view rows.now.design.now }
    ensures knows { (d : Design) (k : Kept) → Knows d k store.old → Knows d (runs_of d process (plain_store (settled_kept d process k)) (way_of how)).kept store.new }
    ensures saved { (d : Design) (k : Kept) → Knows d k store.old → AreSaved d k (row_at rows.now.targets.now process) scratch.new.saved }
    ensures notes { (d : Design) (k : Kept) → Knows d k store.old → AddsNotes N.noted notes.old (runs_of d process (plain_store (settled_kept d process k)) (way_of how)).notes notes.new }
    ensures room { length scratch.new.saved ≡ length scratch.old.saved }
    ensures pieces { scratch.new.pieces ≡ scratch.old.pieces }
    ensures steps { steps.new ≡ steps.old + 1 }
{
    let targets = rows.targets.row(process);
    scratch.saved.save(store, targets);
    meet_targets(store, rows, process);
    run_settled(
        store,
        rows.design,
        process,
        rows.written.row(process),
        how,
        &mut scratch.pieces,
        notes,
        steps,
    );
}

/// A Comb meets its targets as unknown; an Assign meets what is known.
fn meet_targets(store: &mut Store, rows: &ProcessRows, process: usize)
    requires same { design_view store.old.design.now ≡ design_view rows.now.design.now }
    requires lawful { IsLawfulDesign (design_view rows.now.design.now) }
    requires place { process < length rows.now.design.now.processes }
    requires settles { IsClocked (process_at (design_view rows.now.design.now) process) → ⊥ }
    requires rows { HasRows (design_view rows.now.design.now) rows.now.targets.now rows.now.written.now rows.now.wakes.now }
    requires known { (d : Design) × (k : Kept) × Knows d k store.old }
    ensures design { store.new.design ≡ store.old.design }
    ensures knows { (d : Design) (k : Kept) → Knows d k store.old → Knows d (settled_kept d process k) store.new }
{
    let processes = rows.design.processes.as_slice();
    if is_comb(&processes[process]) {
        hide_targets(store, rows.targets.row(process));
    }
}

/// Whether a process is a Comb.
pub(crate) fn is_comb(process: &Process) -> bool
    ensures { result ≡ is_comb_of (process_view process.now) }
{
    matches!(process, Process::Comb { .. })
}
