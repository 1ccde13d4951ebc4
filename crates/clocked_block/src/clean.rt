ghost use Rattle.std.specs.Prelude.{◌≡◌, ◌<◌, ◌≤◌, ◌+◌, ◌∷◌, [], ℕ, List, Some, length};
ghost use Rattle.std.specs.List.{All};
ghost use Rattle.design_model.specs.Design.{body_at};
ghost use Rattle.design_model.specs.Lawful.{IsLawfulDesign};
ghost use Rattle.design_model.specs.Mentions.{body_assigns};
ghost use Rattle.design_model.specs.View.{design_view};
ghost use Rattle.clocked_runs.specs.block_runs.body_calls.Own.{is_in};
ghost use Rattle.clocked_runs.specs.block_runs.Notes.{AddsNotes};
ghost use Rattle.clocked_runs.specs.run_views.body_replay.Contract.{Note, clean};
ghost use Rattle.early_sets.specs.WakeState.{state_of};
ghost use Rattle.entry_values.specs.Entry.{IsEntryOf};
ghost use Rattle.entry_values.specs.replay_model.Step.{Closing, Working, clean_store, run_clean as clean_run};
ghost use Rattle.clocked_block.specs.OneRun.{AtRuns, IsRunBy};

use clocked_runs::{BlockNotes, Certainty, Piece, Store, run_block};
use code_values::CodeValues;
use design_model::Design;
use early_sets::Wakes;
use entry_values::enter_block;
use std::sync::ledger::Ledger;
use step_counts::Steps;
use value_store::Queue;

/// Runs the block with this number that this trigger alone wakes, which is one step: what is early are the early things of `sets`,
/// and the step ends at this time. It takes no memory.
pub fn run_clean<N: BlockNotes, L: Ledger>(
    store: &mut Store,
    design: &Design,
    process: usize,
    trigger: u32,
    sets: &Wakes,
    written: &[u32],
    codes: &[Option<u32>],
    values: &CodeValues,
    time: u64,
    pieces: &mut Queue<Piece>,
    notes: &mut N,
    steps: &mut Steps<L>,
)
    requires same { design_view store.old.design.now ≡ design_view design.now }
    requires lawful { IsLawfulDesign (design_view design.now) }
    requires few { length design.now.signals + length design.now.memories ≤ 4294967295 }
    requires place { process < length design.now.processes }
    requires written { (x : ℕ) → is_in written.now x ≡ body_assigns x (body_at (design_view design.now) process) }
    requires things { All (λ x. x < length design.now.signals + length design.now.memories) (state_of sets.now).early }
    requires signal { trigger < length design.now.signals }
    requires entered { (st : Closing) × (w : Working) × (ps : List ℕ) × IsEntryOf st process trigger (state_of sets.now).early codes.now values.now × AtRuns st w (process ∷ ps) store.old }
    requires none { pieces.old.items ≡ [] }
    requires scratch { 128 ≤ pieces.old.room }
    ensures design { design_view store.new.design.now ≡ design_view design.now }
    ensures runs { (st : Closing) (w : Working) (ps : List ℕ) → IsRunBy st time → IsEntryOf st process trigger (state_of sets.now).early codes.now values.now
        → AtRuns st w (process ∷ ps) store.old → AtRuns st (clean_run st (Some trigger) process w) ps store.new }
    ensures notes { (st : Closing) (w : Working) (ps : List ℕ) → IsRunBy st time → IsEntryOf st process trigger (state_of sets.now).early codes.now values.now
        → AtRuns st w (process ∷ ps) store.old → AddsNotes N.noted notes.old (st.run process (clean_store st process trigger w) (clean st.time)).notes notes.new }
    ensures took { (ns : List Note) × AddsNotes N.noted notes.old ns notes.new }
    ensures pieces { pieces.new ≡ pieces.old }
    ensures steps { steps.new ≡ steps.old + 1 }
{
    let processes = design.processes.as_slice();
    enter_block(
        store,
        design,
        &processes[process],
        trigger,
        sets,
        written,
        codes,
        values,
    );
    run_block(
        store,
        design,
        process,
        written,
        Certainty::Clean { time },
        pieces,
        notes,
        steps,
    );
}
