ghost use Rattle.std.specs.Prelude.{◌≡◌, ◌<◌, ◌≤◌, ◌+◌, ◌∷◌, [], ℕ, List, None, Some, length};
ghost use Rattle.design_model.specs.Design.{Design as TheDesign, body_at};
ghost use Rattle.design_model.specs.Lawful.{IsLawfulDesign};
ghost use Rattle.design_model.specs.Mentions.{body_assigns};
ghost use Rattle.design_model.specs.View.{design_view};
ghost use Rattle.chosen_runs.specs.clocked_block.clocked_runs.block_runs.body_calls.Own.{is_in};
ghost use Rattle.chosen_runs.specs.clocked_block.entry_values.replay_model.Step.{Closing, Working, run_weak as weak_run};
ghost use Rattle.chosen_runs.specs.clocked_block.OneRun.{IsRunBy};
ghost use Rattle.run_marks.specs.cover_marks.Marks.{AreMarksOf};
ghost use Rattle.run_marks.specs.cover_points.Visits.{AreApart, AreOnce};
ghost use Rattle.clocked_marks.specs.AtClocked.{AtClocked, CanRunAll};

use chosen_runs::{Piece, Store, run_weak};
use design_model::Design;
use noted_words::unnoted_law;
use run_marks::{MarkNotes, notes_law};
use std::sync::ledger::Ledger;
use step_counts::Steps;
use value_store::Queue;

/// Runs the block with this number that can wake, first by this signal, and is not clean, which is one step, and marks what it
/// notes. It takes no memory.
pub fn mark_weak<L: Ledger>(
    process: u32,
    waker: u32,
    store: &mut Store,
    design: &Design,
    written: &[u32],
    time: u64,
    pieces: &mut Queue<Piece>,
    notes: &mut MarkNotes,
    steps: &mut Steps<L>,
)
    requires same { design_view store.old.design.now ≡ design_view design.now }
    requires lawful { IsLawfulDesign (design_view design.now) }
    requires place { process < length design.now.processes }
    requires written { (x : ℕ) → is_in written.now x ≡ body_assigns x (body_at (design_view design.now) process) }
    requires ready { (d : TheDesign) × (ps : List ℕ) × CanRunAll d (process ∷ ps) store.old }
    requires none { pieces.old.items ≡ [] }
    requires scratch { 128 ≤ pieces.old.room }
    requires marks { AreMarksOf notes.old.points.now notes.old.marks }
    ensures design { design_view store.new.design.now ≡ design_view design.now }
    ensures ready { (d : TheDesign) (ps : List ℕ) → CanRunAll d (process ∷ ps) store.old → CanRunAll d ps store.new }
    ensures points { notes.new.points.now ≡ notes.old.points.now }
    ensures first { notes.new.written.first ≡ notes.old.written.first }
    ensures ranges { notes.new.written.ranges ≡ notes.old.written.ranges }
    ensures marks { AreMarksOf notes.new.points.now notes.new.marks }
    ensures step { (st : Closing) (w : Working) (ps : List ℕ) → AreApart notes.old.points.now → AreOnce notes.old.points.now → IsRunBy st time
        → AtClocked st notes.old.points.now w (process ∷ ps) store.old notes.old
        → AtClocked st notes.old.points.now (weak_run st None (Some waker) process w) ps store.new notes.new }
    ensures pieces { pieces.new ≡ pieces.old }
    ensures steps { steps.new ≡ steps.old + 1 }
{
    notes_law();
    unnoted_law();
    notes.process = process;
    run_weak(
        store,
        design,
        process as usize,
        waker,
        written,
        time,
        pieces,
        notes,
        steps,
    );
}
