ghost use Rattle.std.specs.Prelude.{◌≡◌, ◌<◌, ◌≤◌, ◌+◌, ◌∷◌, [], ℕ, IfSome, List, Some, length, true};
ghost use Rattle.design_model.specs.Design.{body_at};
ghost use Rattle.design_model.specs.Lawful.{IsLawfulDesign};
ghost use Rattle.design_model.specs.Mentions.{body_assigns};
ghost use Rattle.design_model.specs.View.{design_view};
ghost use Rattle.chosen_early.specs.early_sets.Early.{IsEarlyBy};
ghost use Rattle.chosen_early.specs.early_sets.WakeState.{state_of, trigger_of};
ghost use Rattle.chosen_early.specs.Shared.{IsEarlyList, IsSameButEarly, IsShared};
ghost use Rattle.clocked_block.specs.clocked_runs.block_runs.body_calls.Own.{is_in};
ghost use Rattle.clocked_block.specs.clocked_runs.block_runs.Notes.{AddsNotes};
ghost use Rattle.clocked_block.specs.clocked_runs.run_views.body_replay.Contract.{Note, clean};
ghost use Rattle.clocked_block.specs.entry_values.replay_model.Step.{Closing, Working, clean_store, run_clean as clean_run};
ghost use Rattle.clocked_block.specs.entry_values.step_values.Loose.{has_code};
ghost use Rattle.clocked_block.specs.OneRun.{AtRuns, IsRunBy};
ghost use Rattle.chosen_runs.specs.Chosen.{IsDumpedStep, IsEarlyIn};

use chosen_early::{Habit, Wakes, choose_early};
use clocked_block::{BlockNotes, Piece, Store, run_clean};
use code_values::CodeValues;
use design_model::Design;
use std::sync::ledger::Ledger;
use step_counts::Steps;
use value_store::Queue;

/// Finds what is early for the block with this number, which this trigger alone wakes, and runs it, which is one step. `shared` is
/// as [`choose_early`] has it, and the step ends at this time. It takes no memory.
pub fn run_chosen<N: BlockNotes, L: Ledger>(
    sets: &mut Wakes,
    habit: Habit,
    process: u32,
    trigger: u32,
    shared: &mut Option<u32>,
    store: &mut Store,
    design: &Design,
    written: &[u32],
    codes: &[Option<u32>],
    values: &CodeValues,
    time: u64,
    pieces: &mut Queue<Piece>,
    notes: &mut N,
    steps: &mut Steps<L>,
)
    requires process { process < (state_of sets.old).tables.processes }
    requires trigger { trigger_of (state_of sets.old) process ≡ Some trigger }
    requires shared { IfSome shared.old (λ last. IsShared (state_of sets.old) habit last) }
    requires inside { (x : ℕ) → IsEarlyBy (state_of sets.old) habit process trigger x → x < length design.now.signals + length design.now.memories }
    requires same { design_view store.old.design.now ≡ design_view design.now }
    requires lawful { IsLawfulDesign (design_view design.now) }
    requires few { length design.now.signals + length design.now.memories ≤ 4294967295 }
    requires place { process < length design.now.processes }
    requires written { (x : ℕ) → is_in written.now x ≡ body_assigns x (body_at (design_view design.now) process) }
    requires signal { trigger < length design.now.signals }
    requires coded { has_code codes.now trigger ≡ true }
    requires ready { (st : Closing) × (w : Working) × (ps : List ℕ) × IsDumpedStep st codes.now values.now × AtRuns st w (process ∷ ps) store.old }
    requires none { pieces.old.items ≡ [] }
    requires scratch { 128 ≤ pieces.old.room }
    ensures rest { IsSameButEarly (state_of sets.old) (state_of sets.new) }
    ensures early { IsEarlyList (state_of sets.old) habit process trigger (state_of sets.new).early }
    ensures shared { IfSome shared.new (λ last. IsShared (state_of sets.new) habit last) }
    ensures design { design_view store.new.design.now ≡ design_view design.now }
    ensures runs { (st : Closing) (w : Working) (ps : List ℕ) → IsRunBy st time → IsDumpedStep st codes.now values.now → IsEarlyIn st (state_of sets.old) habit process trigger
        → AtRuns st w (process ∷ ps) store.old → AtRuns st (clean_run st (Some trigger) process w) ps store.new }
    ensures notes { (st : Closing) (w : Working) (ps : List ℕ) → IsRunBy st time → IsDumpedStep st codes.now values.now → IsEarlyIn st (state_of sets.old) habit process trigger
        → AtRuns st w (process ∷ ps) store.old → AddsNotes N.noted notes.old (st.run process (clean_store st process trigger w) (clean st.time)).notes notes.new }
    ensures took { (ns : List Note) × AddsNotes N.noted notes.old ns notes.new }
    ensures pieces { pieces.new ≡ pieces.old }
    ensures steps { steps.new ≡ steps.old + 1 }
{
    choose_early(sets, habit, process, trigger, shared);
    run_clean(
        store,
        design,
        process as usize,
        trigger,
        sets,
        written,
        codes,
        values,
        time,
        pieces,
        notes,
        steps,
    );
}
