//! The Clocked processes of a wake list, first the clean ones in order of their rounds, and then the others.

ghost use Rattle.std.specs.Prelude.{◌≡◌, ◌<◌, ◌≤◌, ◌+◌, [], ℕ, List, length, map};
ghost use Rattle.std.specs.List.{All};
ghost use Rattle.event_machine.specs.Cell.{Values};
ghost use Rattle.four_state.specs.declared.bit.Bit.{Bit};
ghost use Rattle.design_model.specs.Design.{Design};
ghost use Rattle.design_model.specs.Lawful.{IsLawfulDesign};
ghost use Rattle.design_model.specs.View.{design_view};
ghost use Rattle.clocked_marks.specs.AtClocked.{AtClocked, CanRunAll};
ghost use Rattle.clocked_marks.specs.chosen_runs.chosen_early.Shared.{IsSameButEarly};
ghost use Rattle.clocked_marks.specs.chosen_runs.chosen_early.early_sets.WakeState.{state_of};
ghost use Rattle.clocked_marks.specs.chosen_runs.clocked_block.entry_values.step_values.Dumped.{AreDumped};
ghost use Rattle.clocked_marks.specs.run_marks.cover_marks.Marks.{AreMarksOf};
ghost use Rattle.replay_sets.specs.replay_model.Step.{Closing, Working, clocked_run, opened};
ghost use Rattle.step_clocked.specs.Runs.{AreAssignedRows, AreChosenOf, AreClockedOf, AreStepSets, IsClockedStep, clean_first};

use crate::clean::{put_by_round, run_clean_ones};
use crate::given::Given;
use crate::weak::run_weak_ones;
use clocked_marks::{MarkNotes, Piece, Store, Wakes};
use std::sync::ledger::Ledger;
use step_counts::Steps;
use value_store::Queue;
use wake_list::WakeList;

/// Runs the processes of the list that can wake, each once: first the clean ones in order of their rounds, those of one round in the
/// order of the list, then the others. What they queue is not made. The list is empty then, and `ran` has the numbers of those that
/// ran, in that order. `by_round` and `later` are scratch room for the clean ones and for the others.
pub(crate) fn run_in_turn<L: Ledger>(
    list: &mut WakeList,
    by_round: &mut WakeList,
    later: &mut Queue<u32>,
    ran: &mut Queue<usize>,
    sets: &mut Wakes,
    store: &mut Store,
    given: &Given,
    pieces: &mut Queue<Piece>,
    notes: &mut MarkNotes,
    steps: &mut Steps<L>,
)
    requires count { list.old.count ≡ length given.now.design.now.processes }
    requires below { All (λ q. q.0 < length given.now.design.now.processes) list.old.pairs }
    requires places { length given.now.design.now.processes ≤ by_round.old.count }
    requires ranks { length given.now.design.now.signals + length given.now.design.now.memories < by_round.old.count }
    requires none_by_round { by_round.old.pairs ≡ [] }
    requires later { length given.now.design.now.processes ≤ later.old.room }
    requires ran { length given.now.design.now.processes ≤ ran.old.room }
    requires same { design_view store.old.design.now ≡ design_view given.now.design.now }
    requires lawful { IsLawfulDesign (design_view given.now.design.now) }
    requires ready { (d : Design) × CanRunAll d (map (λ q. q.0) list.old.pairs) store.old }
    requires sets { AreStepSets (design_view given.now.design.now) given.now.codes.now (state_of sets.old) }
    requires written { AreAssignedRows (design_view given.now.design.now) given.now.written.now }
    requires before { (old : Values Bit) × AreDumped (design_view given.now.design.now) given.now.codes.now given.now.values.now.closed old }
    requires after { (new : Values Bit) × AreDumped (design_view given.now.design.now) given.now.codes.now given.now.values.now.last new }
    requires none { pieces.old.items ≡ [] }
    requires parts { 128 ≤ pieces.old.room }
    requires marks { AreMarksOf notes.old.points.now notes.old.marks }
    ensures count { list.new.count ≡ list.old.count }
    ensures empty { list.new.pairs ≡ [] }
    ensures by_round { by_round.new ≡ by_round.old }
    ensures later { later.new ≡ record later.old { items = [] } }
    ensures ran { ran.new.items ≡ clean_first (state_of sets.old) (map (λ q. q.0) list.old.pairs) }
    ensures within { All (λ p. p < length given.now.design.now.processes) ran.new.items }
    ensures places { ran.new.room ≡ ran.old.room }
    ensures rest { IsSameButEarly (state_of sets.old) (state_of sets.new) }
    ensures same { design_view store.new.design.now ≡ design_view given.now.design.now }
    ensures ready { (d : Design) × CanRunAll d [] store.new }
    ensures pieces { pieces.new ≡ pieces.old }
    ensures points { notes.new.points.now ≡ notes.old.points.now }
    ensures first { notes.new.written.first ≡ notes.old.written.first }
    ensures ranges { notes.new.written.ranges ≡ notes.old.written.ranges }
    ensures marks { AreMarksOf notes.new.points.now notes.new.marks }
    ensures steps { steps.new ≡ steps.old + length ran.new.items }
    ensures chosen { (early : ℕ → List ℕ) × AreChosenOf (state_of sets.old) given.now.habit (map (λ q. q.0) list.old.pairs) early }
    ensures step { (st : Closing) → IsClockedStep st notes.old.points.now (state_of sets.old) given.now.habit given.now.codes.now given.now.values.now given.now.time → AreClockedOf st (map (λ q. q.0) list.old.pairs)
        → AtClocked st notes.old.points.now (opened st) (map (λ q. q.0) list.old.pairs) store.old notes.old
        → AtClocked st notes.old.points.now (clocked_run st) [] store.new notes.new }
{
    later.clear();
    ran.clear();
    put_by_round(list, by_round, later, sets);
    run_clean_ones(by_round, ran, sets, store, given, pieces, notes, steps);
    run_weak_ones(
        later.as_slice(),
        ran,
        sets,
        store,
        given,
        pieces,
        notes,
        steps,
    );
    later.clear();
}
