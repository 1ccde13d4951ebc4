//! The Clocked processes of a wake list run, and what they queue is made.

ghost use Rattle.std.specs.Prelude.{◌≡◌, ◌<◌, ◌≤◌, ◌+◌, ◌↔◌, [], ℕ, List, length, map, true};
ghost use Rattle.std.specs.List.{All};
ghost use Rattle.event_machine.specs.Cell.{Values};
ghost use Rattle.four_state.specs.declared.bit.Bit.{Bit};
ghost use Rattle.design_model.specs.Design.{AreDistinct, Design, In};
ghost use Rattle.design_model.specs.Lawful.{IsLawfulDesign};
ghost use Rattle.design_model.specs.View.{design_view};
ghost use Rattle.body_replay.specs.Replay.{flush};
ghost use Rattle.body_replay.specs.Store.{Kept};
ghost use Rattle.clocked_marks.specs.AtClocked.{AtClocked, CanRunAll};
ghost use Rattle.clocked_marks.specs.chosen_runs.chosen_early.Shared.{IsSameButEarly};
ghost use Rattle.clocked_marks.specs.chosen_runs.chosen_early.early_sets.WakeState.{state_of};
ghost use Rattle.clocked_marks.specs.chosen_runs.clocked_block.clocked_runs.store_knowledge.Knows.{Knows};
ghost use Rattle.clocked_marks.specs.chosen_runs.clocked_block.entry_values.step_values.Dumped.{AreDumped};
ghost use Rattle.clocked_marks.specs.run_marks.cover_marks.Marks.{AreMarksOf};
ghost use Rattle.clocked_marks.specs.run_marks.mark_laws.Marked.{AreVerdicts};
ghost use Rattle.replay_sets.specs.SetsOf.{AreChosen};
ghost use Rattle.replay_sets.specs.replay_model.Step.{Closing, Working, clocked_run, opened};
ghost use Rattle.written_words.specs.Same.{SameUnwritten};
ghost use Rattle.step_clocked.specs.Runs.{AreAssignedRows, AreClockedOf, AreStepSets, HasWoken, IsClockedStep, clean_first, is_woken};

use crate::given::Given;
use crate::turns::run_in_turn;
use block_runs::queue_law;
use clocked_marks::{MarkNotes, Piece, Store, Wakes, begin_runs, make_updates};
use std::sync::ledger::Ledger;
use step_counts::Steps;
use value_store::Queue;
use wake_list::WakeList;

/// Runs the processes of a wake list that can wake, each once: first the clean ones in order of the rounds in which their triggers
/// became single, those of one round in the order of the list, then the others. The list is empty then, and `ran` has the numbers of
/// those that ran, in that order. What they queue is made. The marks take what the runs note. Each run is one step. `by_round`, `later`
/// and `pieces` are scratch room. It takes no memory, and for each process twice the logarithm of the room of the lists for its
/// places on them, and time for its event list, for what is early for it and for its body.
pub fn run_clocked<L: Ledger>(
    list: &mut WakeList,
    by_round: &mut WakeList,
    later: &mut Queue<u32>,
    ran: &mut Queue<usize>,
    sets: &mut Wakes,
    store: &mut Store,
    given: &Given,
    pieces: &mut Queue<Piece>,
    notes: &mut MarkNotes,
    steps: &mut Steps<L>,
)
    requires count { list.old.count ≡ length given.now.design.now.processes }
    requires below { All (λ q. q.0 < length given.now.design.now.processes) list.old.pairs }
    requires places { length given.now.design.now.processes ≤ by_round.old.count }
    requires ranks { length given.now.design.now.signals + length given.now.design.now.memories < by_round.old.count }
    requires none_by_round { by_round.old.pairs ≡ [] }
    requires later { length given.now.design.now.processes ≤ later.old.room }
    requires ran { length given.now.design.now.processes ≤ ran.old.room }
    requires same { design_view store.old.design.now ≡ design_view given.now.design.now }
    requires lawful { IsLawfulDesign (design_view given.now.design.now) }
    requires known { (d : Design) × (k : Kept) × Knows d k store.old }
    requires sets { AreStepSets (design_view given.now.design.now) given.now.codes.now (state_of sets.old) }
    requires written { AreAssignedRows (design_view given.now.design.now) given.now.written.now }
    requires before { (old : Values Bit) × AreDumped (design_view given.now.design.now) given.now.codes.now given.now.values.now.closed old }
    requires after { (new : Values Bit) × AreDumped (design_view given.now.design.now) given.now.codes.now given.now.values.now.last new }
    requires none { pieces.old.items ≡ [] }
    requires parts { 128 ≤ pieces.old.room }
    requires marks { AreMarksOf notes.old.points.now notes.old.marks }
    ensures count { list.new.count ≡ list.old.count }
    ensures empty { list.new.pairs ≡ [] }
    ensures by_round { by_round.new ≡ by_round.old }
    ensures later { later.new ≡ record later.old { items = [] } }
    ensures ran { ran.new.items ≡ clean_first (state_of sets.old) (map (λ q. q.0) list.old.pairs) }
    ensures members { (p : ℕ) → In p ran.new.items ↔ (In p (map (λ q. q.0) list.old.pairs) × (is_woken (state_of sets.old) p ≡ true)) }
    ensures once { AreDistinct ran.new.items }
    ensures within { All (λ p. p < length given.now.design.now.processes) ran.new.items }
    ensures places { ran.new.room ≡ ran.old.room }
    ensures rest { IsSameButEarly (state_of sets.old) (state_of sets.new) }
    ensures same { design_view store.new.design.now ≡ design_view given.now.design.now }
    ensures known { (d : Design) × (k : Kept) × Knows d k store.new }
    ensures pieces { pieces.new ≡ pieces.old }
    ensures points { notes.new.points.now ≡ notes.old.points.now }
    ensures first { notes.new.written.first ≡ notes.old.written.first }
    ensures ranges { notes.new.written.ranges ≡ notes.old.written.ranges }
    ensures marks { AreMarksOf notes.new.points.now notes.new.marks }
    ensures steps { steps.new ≡ steps.old + length ran.new.items }
    ensures chosen { HasWoken (state_of sets.old) (map (λ q. q.0) list.old.pairs) → (early : ℕ → List ℕ) × AreChosen (state_of sets.old) given.now.habit early }
    ensures knows { (st : Closing) → IsClockedStep st notes.old.points.now (state_of sets.old) given.now.habit given.now.codes.now given.now.values.now given.now.time → AreClockedOf st (map (λ q. q.0) list.old.pairs)
        → Knows st.design st.start.kept store.old → AreVerdicts st.design notes.old.points.now st.start.notes notes.old.marks.verdicts
        → Knows st.design (flush (clocked_run st).kept (clocked_run st).queue) store.new }
    ensures verdicts { (st : Closing) → IsClockedStep st notes.old.points.now (state_of sets.old) given.now.habit given.now.codes.now given.now.values.now given.now.time → AreClockedOf st (map (λ q. q.0) list.old.pairs)
        → Knows st.design st.start.kept store.old → AreVerdicts st.design notes.old.points.now st.start.notes notes.old.marks.verdicts
        → AreVerdicts st.design notes.old.points.now (clocked_run st).notes notes.new.marks.verdicts }
    ensures unwritten { (st : Closing) → IsClockedStep st notes.old.points.now (state_of sets.old) given.now.habit given.now.codes.now given.now.values.now given.now.time → AreClockedOf st (map (λ q. q.0) list.old.pairs)
        → Knows st.design st.start.kept store.old → AreVerdicts st.design notes.old.points.now st.start.notes notes.old.marks.verdicts
        → SameUnwritten st.design st.start.kept (flush (clocked_run st).kept (clocked_run st).queue) notes.new.written }
{
    queue_law();
    list.fitting();
    begin_runs(store);
    run_in_turn(
        list, by_round, later, ran, sets, store, given, pieces, notes, steps,
    );
    make_updates(store);
}
