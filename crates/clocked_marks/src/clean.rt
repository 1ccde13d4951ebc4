ghost use Rattle.std.specs.Prelude.{◌≡◌, ◌<◌, ◌≤◌, ◌+◌, ◌∷◌, [], ℕ, IfSome, List, Some, length, true};
ghost use Rattle.event_machine.specs.Cell.{Values};
ghost use Rattle.four_state.specs.declared.bit.Bit.{Bit};
ghost use Rattle.design_model.specs.Design.{Design as TheDesign, body_at};
ghost use Rattle.design_model.specs.Lawful.{IsLawfulDesign};
ghost use Rattle.design_model.specs.Mentions.{body_assigns};
ghost use Rattle.design_model.specs.View.{design_view};
ghost use Rattle.chosen_runs.specs.chosen_early.early_sets.Early.{IsEarlyBy};
ghost use Rattle.chosen_runs.specs.chosen_early.early_sets.WakeState.{state_of, trigger_of};
ghost use Rattle.chosen_runs.specs.chosen_early.Shared.{IsEarlyList, IsSameButEarly, IsShared};
ghost use Rattle.chosen_runs.specs.clocked_block.clocked_runs.block_runs.body_calls.Own.{is_in};
ghost use Rattle.chosen_runs.specs.clocked_block.entry_values.replay_model.Step.{Closing, Working, run_clean};
ghost use Rattle.chosen_runs.specs.clocked_block.entry_values.step_values.Dumped.{AreDumped};
ghost use Rattle.chosen_runs.specs.clocked_block.entry_values.step_values.Loose.{has_code};
ghost use Rattle.chosen_runs.specs.clocked_block.OneRun.{IsRunBy};
ghost use Rattle.chosen_runs.specs.Chosen.{IsDumpedStep, IsEarlyIn};
ghost use Rattle.run_marks.specs.cover_marks.Marks.{AreMarksOf};
ghost use Rattle.run_marks.specs.cover_points.Visits.{AreApart, AreOnce};
ghost use Rattle.clocked_marks.specs.AtClocked.{AtClocked, CanRunAll};

use chosen_runs::{Habit, Piece, Store, Wakes, run_chosen};
use code_values::CodeValues;
use design_model::Design;
use noted_words::unnoted_law;
use run_marks::{MarkNotes, notes_law};
use std::sync::ledger::Ledger;
use step_counts::Steps;
use value_store::Queue;

/// Runs the block with this number, which this trigger alone wakes, entered by what is early for it, which is one step, and
/// marks what it notes. `shared` is the trigger of the last one, if others can share what is early for it. It takes no memory.
pub fn mark_clean<L: Ledger>(
    sets: &mut Wakes,
    habit: Habit,
    process: u32,
    trigger: u32,
    shared: &mut Option<u32>,
    store: &mut Store,
    design: &Design,
    written: &[u32],
    codes: &[Option<u32>],
    values: &CodeValues,
    time: u64,
    pieces: &mut Queue<Piece>,
    notes: &mut MarkNotes,
    steps: &mut Steps<L>,
)
    requires process { process < (state_of sets.old).tables.processes }
    requires trigger { trigger_of (state_of sets.old) process ≡ Some trigger }
    requires shared { IfSome shared.old (λ last. IsShared (state_of sets.old) habit last) }
    requires inside { (x : ℕ) → IsEarlyBy (state_of sets.old) habit process trigger x → x < length design.now.signals + length design.now.memories }
    requires same { design_view store.old.design.now ≡ design_view design.now }
    requires lawful { IsLawfulDesign (design_view design.now) }
    requires few { length design.now.signals + length design.now.memories ≤ 4294967295 }
    requires place { process < length design.now.processes }
    requires written { (x : ℕ) → is_in written.now x ≡ body_assigns x (body_at (design_view design.now) process) }
    requires signal { trigger < length design.now.signals }
    requires coded { has_code codes.now trigger ≡ true }
    requires before { (old : Values Bit) × AreDumped (design_view design.now) codes.now values.now.closed old }
    requires after { (new : Values Bit) × AreDumped (design_view design.now) codes.now values.now.last new }
    requires ready { (d : TheDesign) × (ps : List ℕ) × CanRunAll d (process ∷ ps) store.old }
    requires none { pieces.old.items ≡ [] }
    requires scratch { 128 ≤ pieces.old.room }
    requires marks { AreMarksOf notes.old.points.now notes.old.marks }
    ensures rest { IsSameButEarly (state_of sets.old) (state_of sets.new) }
    ensures early { IsEarlyList (state_of sets.old) habit process trigger (state_of sets.new).early }
    ensures shared { IfSome shared.new (λ last. IsShared (state_of sets.new) habit last) }
    ensures design { design_view store.new.design.now ≡ design_view design.now }
    ensures ready { (d : TheDesign) (ps : List ℕ) → CanRunAll d (process ∷ ps) store.old → CanRunAll d ps store.new }
    ensures points { notes.new.points.now ≡ notes.old.points.now }
    ensures first { notes.new.written.first ≡ notes.old.written.first }
    ensures ranges { notes.new.written.ranges ≡ notes.old.written.ranges }
    ensures marks { AreMarksOf notes.new.points.now notes.new.marks }
    ensures step { (st : Closing) (w : Working) (ps : List ℕ) → AreApart notes.old.points.now → AreOnce notes.old.points.now
        → IsRunBy st time → IsDumpedStep st codes.now values.now → IsEarlyIn st (state_of sets.old) habit process trigger
        → AtClocked st notes.old.points.now w (process ∷ ps) store.old notes.old
        → AtClocked st notes.old.points.now (run_clean st (Some trigger) process w) ps store.new notes.new }
    ensures pieces { pieces.new ≡ pieces.old }
    ensures steps { steps.new ≡ steps.old + 1 }
{
    notes_law();
    unnoted_law();
    notes.process = process;
    run_chosen(
        sets, habit, process, trigger, shared, store, design, written, codes, values, time, pieces,
        notes, steps,
    );
}
