//! The clean ones of the Clocked processes of a wake list, in order of their rounds.

ghost use Rattle.std.specs.Prelude.{◌≡◌, ◌<◌, ◌≤◌, ◌+◌, ◌++◌, ◌∷◌, [], ℕ, IfSome, List, Some, filter, length, map, true};
ghost use Rattle.std.specs.List.{All};
ghost use Rattle.event_machine.specs.Cell.{Values};
ghost use Rattle.four_state.specs.declared.bit.Bit.{Bit};
ghost use Rattle.design_model.specs.Design.{Design, In};
ghost use Rattle.design_model.specs.Lawful.{IsLawfulDesign};
ghost use Rattle.design_model.specs.View.{design_view};
ghost use Rattle.clocked_marks.specs.AtClocked.{AtClocked, CanRunAll};
ghost use Rattle.clocked_marks.specs.chosen_runs.Chosen.{IsDumpedStep, IsEarlyIn};
ghost use Rattle.clocked_marks.specs.chosen_runs.chosen_early.Shared.{IsEarlyList, IsSameButEarly, IsShared};
ghost use Rattle.clocked_marks.specs.chosen_runs.chosen_early.early_sets.WakeState.{state_of, trigger_of};
ghost use Rattle.clocked_marks.specs.chosen_runs.clocked_block.entry_values.step_values.Dumped.{AreDumped};
ghost use Rattle.clocked_marks.specs.chosen_runs.clocked_block.OneRun.{IsRunBy};
ghost use Rattle.clocked_marks.specs.run_marks.cover_marks.Marks.{AreMarksOf};
ghost use Rattle.clocked_marks.specs.run_marks.cover_points.Visits.{AreApart, AreOnce};
ghost use Rattle.replay_sets.specs.SetsOf.{round_of};
ghost use Rattle.replay_sets.specs.replay_model.Step.{Closing, Working, run_all_clean, run_clean as run_clean_of};
ghost use Rattle.step_clocked.specs.Runs.{AreAssignedRows, AreChosenOf, AreStepSets, IsClockedStep, clean_in_rounds, is_unclean, runs_clean};

use crate::given::Given;
use clocked_marks::{MarkNotes, Piece, Store, Wakes, mark_clean};
use std::sync::ledger::Ledger;
use step_counts::Steps;
use value_store::Queue;
use wake_list::WakeList;

/// Puts the clean ones of the processes of the list on another one, in order of the rounds in which their triggers became single, and
/// the numbers of the others into `later`. The first list is empty then.
pub(crate) fn put_by_round(
    list: &mut WakeList,
    by_round: &mut WakeList,
    later: &mut Queue<u32>,
    sets: &Wakes,
)
    requires processes { list.old.count ≡ (state_of sets.now).tables.processes }
    requires places { list.old.count ≤ by_round.old.count }
    requires ranks { (p : ℕ) → runs_clean (state_of sets.now) p ≡ true → round_of (state_of sets.now) p < by_round.old.count }
    requires empty { by_round.old.pairs ≡ [] }
    requires none_later { later.old.items ≡ [] }
    requires later { list.old.count ≤ later.old.room }
    ensures count { list.new.count ≡ list.old.count }
    ensures empty { list.new.pairs ≡ [] }
    ensures later { later.new.items ≡ filter (is_unclean (state_of sets.now)) (map (λ q. q.0) list.old.pairs) }
    ensures later_places { later.new.room ≡ later.old.room }
    ensures rounds { by_round.new.count ≡ by_round.old.count }
    ensures few { length by_round.new.pairs + length later.new.items ≤ list.old.count }
    ensures clean { map (λ q. q.0) by_round.new.pairs ≡ clean_in_rounds (state_of sets.now) (map (λ q. q.0) list.old.pairs) }
{
    list.fitting();
    while let Some(process) = list.take() {
        if sets.trigger(process).is_some() {
            let _ = by_round.put(process, sets.round(process));
        } else {
            later.push(process);
        }
    }
}

/// Runs the processes of the list, which are clean, in its order. The list is empty then, and their numbers are added to `ran`.
pub(crate) fn run_clean_ones<L: Ledger>(
    list: &mut WakeList,
    ran: &mut Queue<usize>,
    sets: &mut Wakes,
    store: &mut Store,
    given: &Given,
    pieces: &mut Queue<Piece>,
    notes: &mut MarkNotes,
    steps: &mut Steps<L>,
)
    requires clean { (p : ℕ) → In p (map (λ q. q.0) list.old.pairs) → runs_clean (state_of sets.old) p ≡ true }
    requires below { All (λ p. p < length given.now.design.now.processes) (map (λ q. q.0) list.old.pairs) }
    requires none_ran { ran.old.items ≡ [] }
    requires ran { length list.old.pairs ≤ ran.old.room }
    requires same { design_view store.old.design.now ≡ design_view given.now.design.now }
    requires lawful { IsLawfulDesign (design_view given.now.design.now) }
    requires ready { (d : Design) × (later : List ℕ) × CanRunAll d (map (λ q. q.0) list.old.pairs ++ later) store.old }
    requires sets { AreStepSets (design_view given.now.design.now) given.now.codes.now (state_of sets.old) }
    requires written { AreAssignedRows (design_view given.now.design.now) given.now.written.now }
    requires before { (old : Values Bit) × AreDumped (design_view given.now.design.now) given.now.codes.now given.now.values.now.closed old }
    requires after { (new : Values Bit) × AreDumped (design_view given.now.design.now) given.now.codes.now given.now.values.now.last new }
    requires none { pieces.old.items ≡ [] }
    requires parts { 128 ≤ pieces.old.room }
    requires marks { AreMarksOf notes.old.points.now notes.old.marks }
    ensures count { list.new.count ≡ list.old.count }
    ensures empty { list.new.pairs ≡ [] }
    ensures ran { ran.new.items ≡ map (λ q. q.0) list.old.pairs }
    ensures within { All (λ p. p < length given.now.design.now.processes) ran.new.items }
    ensures places { ran.new.room ≡ ran.old.room }
    ensures rest { IsSameButEarly (state_of sets.old) (state_of sets.new) }
    ensures same { design_view store.new.design.now ≡ design_view given.now.design.now }
    ensures ready { (d : Design) (later : List ℕ) → CanRunAll d (map (λ q. q.0) list.old.pairs ++ later) store.old → CanRunAll d later store.new }
    ensures pieces { pieces.new ≡ pieces.old }
    ensures points { notes.new.points.now ≡ notes.old.points.now }
    ensures first { notes.new.written.first ≡ notes.old.written.first }
    ensures ranges { notes.new.written.ranges ≡ notes.old.written.ranges }
    ensures marks { AreMarksOf notes.new.points.now notes.new.marks }
    ensures steps { steps.new ≡ steps.old + length ran.new.items }
    ensures chosen { (early : ℕ → List ℕ) × AreChosenOf (state_of sets.old) given.now.habit (map (λ q. q.0) list.old.pairs) early }
    ensures step { (st : Closing) (w : Working) (later : List ℕ) → IsClockedStep st notes.old.points.now (state_of sets.old) given.now.habit given.now.codes.now given.now.values.now given.now.time
        → AtClocked st notes.old.points.now w (map (λ q. q.0) list.old.pairs ++ later) store.old notes.old
        → AtClocked st notes.old.points.now (run_all_clean st (map (λ q. q.0) list.old.pairs) w) later store.new notes.new }
{
    let mut shared = None;
    while let Some(process) = list.take() {
        match sets.trigger(process) {
            Some(trigger) => {
                ran.push(process as usize);
                run_clean(
                    process,
                    trigger,
                    &mut shared,
                    sets,
                    store,
                    given,
                    pieces,
                    notes,
                    steps,
                );
            }
            None => unreachable!(),
        }
    }
}

/// Runs a process that this trigger alone wakes, which is one step. `shared` is as [`mark_clean`] has it.
fn run_clean<L: Ledger>(
    process: u32,
    trigger: u32,
    shared: &mut Option<u32>,
    sets: &mut Wakes,
    store: &mut Store,
    given: &Given,
    pieces: &mut Queue<Piece>,
    notes: &mut MarkNotes,
    steps: &mut Steps<L>,
)
    requires place { process < length given.now.design.now.processes }
    requires trigger { trigger_of (state_of sets.old) process ≡ Some trigger }
    requires shared { IfSome shared.old (λ last. IsShared (state_of sets.old) given.now.habit last) }
    requires same { design_view store.old.design.now ≡ design_view given.now.design.now }
    requires lawful { IsLawfulDesign (design_view given.now.design.now) }
    requires ready { (d : Design) × (ps : List ℕ) × CanRunAll d (process ∷ ps) store.old }
    requires sets { AreStepSets (design_view given.now.design.now) given.now.codes.now (state_of sets.old) }
    requires written { AreAssignedRows (design_view given.now.design.now) given.now.written.now }
    requires before { (old : Values Bit) × AreDumped (design_view given.now.design.now) given.now.codes.now given.now.values.now.closed old }
    requires after { (new : Values Bit) × AreDumped (design_view given.now.design.now) given.now.codes.now given.now.values.now.last new }
    requires none { pieces.old.items ≡ [] }
    requires parts { 128 ≤ pieces.old.room }
    requires marks { AreMarksOf notes.old.points.now notes.old.marks }
    ensures rest { IsSameButEarly (state_of sets.old) (state_of sets.new) }
    ensures early { IsEarlyList (state_of sets.old) given.now.habit process trigger (state_of sets.new).early }
    ensures shared { IfSome shared.new (λ last. IsShared (state_of sets.new) given.now.habit last) }
    ensures same { design_view store.new.design.now ≡ design_view given.now.design.now }
    ensures ready { (d : Design) (ps : List ℕ) → CanRunAll d (process ∷ ps) store.old → CanRunAll d ps store.new }
    ensures pieces { pieces.new ≡ pieces.old }
    ensures points { notes.new.points.now ≡ notes.old.points.now }
    ensures first { notes.new.written.first ≡ notes.old.written.first }
    ensures ranges { notes.new.written.ranges ≡ notes.old.written.ranges }
    ensures marks { AreMarksOf notes.new.points.now notes.new.marks }
    ensures steps { steps.new ≡ steps.old + 1 }
    ensures step { (st : Closing) (w : Working) (ps : List ℕ) → AreApart notes.old.points.now → AreOnce notes.old.points.now
        → IsRunBy st given.now.time → IsDumpedStep st given.now.codes.now given.now.values.now → IsEarlyIn st (state_of sets.old) given.now.habit process trigger
        → AtClocked st notes.old.points.now w (process ∷ ps) store.old notes.old
        → AtClocked st notes.old.points.now (run_clean_of st (Some trigger) process w) ps store.new notes.new }
{
    mark_clean(
        sets,
        given.habit,
        process,
        trigger,
        shared,
        store,
        given.design,
        given.written.row(process as usize),
        given.codes,
        given.values,
        given.time,
        pieces,
        notes,
        steps,
    );
}
