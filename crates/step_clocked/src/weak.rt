//! The Clocked processes that can wake and are not clean.

ghost use Rattle.std.specs.Prelude.{◌≡◌, ◌<◌, ◌≤◌, ◌+◌, ◌++◌, ◌∷◌, [], ℕ, List, None, Some, filter, length};
ghost use Rattle.std.specs.List.{All};
ghost use Rattle.design_model.specs.Design.{Design, In};
ghost use Rattle.design_model.specs.Lawful.{IsLawfulDesign};
ghost use Rattle.design_model.specs.View.{design_view};
ghost use Rattle.clocked_marks.specs.AtClocked.{AtClocked, CanRunAll};
ghost use Rattle.clocked_marks.specs.chosen_runs.chosen_early.early_sets.WakeState.{state_of, trigger_of, waker_of};
ghost use Rattle.clocked_marks.specs.chosen_runs.clocked_block.OneRun.{IsRunBy};
ghost use Rattle.clocked_marks.specs.run_marks.cover_marks.Marks.{AreMarksOf};
ghost use Rattle.clocked_marks.specs.run_marks.cover_points.Visits.{AreApart, AreOnce};
ghost use Rattle.replay_sets.specs.replay_model.Step.{Closing, Working, run_all_weak, run_weak as run_weak_of};
ghost use Rattle.step_clocked.specs.Runs.{AreAssignedRows, is_woken};

use crate::given::Given;
use clocked_marks::{MarkNotes, Piece, Store, Wakes, mark_weak};
use std::sync::ledger::Ledger;
use step_counts::Steps;
use value_store::Queue;

/// Runs those of these processes that can wake, none of which is clean, in their order. Their numbers are added to `ran`.
pub(crate) fn run_weak_ones<L: Ledger>(
    later: &[u32],
    ran: &mut Queue<usize>,
    sets: &Wakes,
    store: &mut Store,
    given: &Given,
    pieces: &mut Queue<Piece>,
    notes: &mut MarkNotes,
    steps: &mut Steps<L>,
)
    requires processes { (state_of sets.now).tables.processes ≡ length given.now.design.now.processes }
    requires below { All (λ p. p < length given.now.design.now.processes) later.now }
    requires unclean { (p : ℕ) → In p later.now → trigger_of (state_of sets.now) p ≡ None }
    requires ran { length ran.old.items + length later.now ≤ ran.old.room }
    requires within { All (λ p. p < length given.now.design.now.processes) ran.old.items }
    requires same { design_view store.old.design.now ≡ design_view given.now.design.now }
    requires lawful { IsLawfulDesign (design_view given.now.design.now) }
    requires ready { (d : Design) × CanRunAll d later.now store.old }
    requires written { AreAssignedRows (design_view given.now.design.now) given.now.written.now }
    requires none { pieces.old.items ≡ [] }
    requires parts { 128 ≤ pieces.old.room }
    requires marks { AreMarksOf notes.old.points.now notes.old.marks }
    ensures ran { ran.new.items ≡ ran.old.items ++ filter (is_woken (state_of sets.now)) later.now }
    ensures within { All (λ p. p < length given.now.design.now.processes) ran.new.items }
    ensures places { ran.new.room ≡ ran.old.room }
    ensures same { design_view store.new.design.now ≡ design_view given.now.design.now }
    ensures ready { (d : Design) × CanRunAll d [] store.new }
    ensures pieces { pieces.new ≡ pieces.old }
    ensures points { notes.new.points.now ≡ notes.old.points.now }
    ensures first { notes.new.written.first ≡ notes.old.written.first }
    ensures ranges { notes.new.written.ranges ≡ notes.old.written.ranges }
    ensures marks { AreMarksOf notes.new.points.now notes.new.marks }
    ensures steps { steps.new + length ran.old.items ≡ steps.old + length ran.new.items }
    ensures step { (st : Closing) (w : Working) → AreApart notes.old.points.now → AreOnce notes.old.points.now → IsRunBy st given.now.time
        → ((p : ℕ) → st.sets.trigger p ≡ trigger_of (state_of sets.now) p) → ((p : ℕ) → st.sets.wakes p ≡ waker_of (state_of sets.now) p)
        → AtClocked st notes.old.points.now w later.now store.old notes.old
        → AtClocked st notes.old.points.now (run_all_weak st later.now w) [] store.new notes.new }
{
    for process in later {
        let Some(waker) = sets.waker(*process) else {
            continue;
        };
        ran.push(*process as usize);
        run_weak(*process, waker, store, given, pieces, notes, steps);
    }
}

/// Runs a process that this signal can wake first and that is not clean, which is one step.
fn run_weak<L: Ledger>(
    process: u32,
    waker: u32,
    store: &mut Store,
    given: &Given,
    pieces: &mut Queue<Piece>,
    notes: &mut MarkNotes,
    steps: &mut Steps<L>,
)
    requires place { process < length given.now.design.now.processes }
    requires same { design_view store.old.design.now ≡ design_view given.now.design.now }
    requires lawful { IsLawfulDesign (design_view given.now.design.now) }
    requires ready { (d : Design) × (ps : List ℕ) × CanRunAll d (process ∷ ps) store.old }
    requires written { AreAssignedRows (design_view given.now.design.now) given.now.written.now }
    requires none { pieces.old.items ≡ [] }
    requires parts { 128 ≤ pieces.old.room }
    requires marks { AreMarksOf notes.old.points.now notes.old.marks }
    ensures same { design_view store.new.design.now ≡ design_view given.now.design.now }
    ensures ready { (d : Design) (ps : List ℕ) → CanRunAll d (process ∷ ps) store.old → CanRunAll d ps store.new }
    ensures pieces { pieces.new ≡ pieces.old }
    ensures points { notes.new.points.now ≡ notes.old.points.now }
    ensures first { notes.new.written.first ≡ notes.old.written.first }
    ensures ranges { notes.new.written.ranges ≡ notes.old.written.ranges }
    ensures marks { AreMarksOf notes.new.points.now notes.new.marks }
    ensures steps { steps.new ≡ steps.old + 1 }
    ensures step { (st : Closing) (w : Working) (ps : List ℕ) → AreApart notes.old.points.now → AreOnce notes.old.points.now → IsRunBy st given.now.time
        → AtClocked st notes.old.points.now w (process ∷ ps) store.old notes.old
        → AtClocked st notes.old.points.now (run_weak_of st None (Some waker) process w) ps store.new notes.new }
{
    mark_weak(
        process,
        waker,
        store,
        given.design,
        given.written.row(process as usize),
        given.time,
        pieces,
        notes,
        steps,
    );
}
