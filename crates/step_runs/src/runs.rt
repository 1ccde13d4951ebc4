//! The processes of a wake list run.

ghost use Rattle.std.specs.Prelude.{◌≡◌, ◌<◌, ◌≤◌, ◌+◌, [], ℕ, length, map, true};
ghost use Rattle.std.specs.List.{All};
ghost use Rattle.design_model.specs.Design.{Design, IsClocked, process_at};
ghost use Rattle.design_model.specs.Lawful.{IsLawfulDesign};
ghost use Rattle.design_model.specs.View.{design_view};
ghost use Rattle.body_replay.specs.Store.{Kept};
ghost use Rattle.run_marks.specs.cover_marks.Marks.{AreMarksOf};
ghost use Rattle.run_marks.specs.cover_points.Visits.{AreApart, AreOnce};
ghost use Rattle.early_sets.specs.WakeState.{state_of};
ghost use Rattle.index_sets.specs.Rows.{row_at};
ghost use Rattle.settling.specs.replay_model.Step.{Closing, Working, all_run, clocked_run, is_touched, run_settling, settle_start};
ghost use Rattle.settling.specs.store_knowledge.Knows.{Knows};
ghost use Rattle.settling.specs.step_values.Vectors.{FitsSignals};
ghost use Rattle.settling.specs.Runs.{HasRows, IsStepOf};
ghost use Rattle.settling.specs.step_parts.AtStep.{AtStep};
ghost use Rattle.settling.specs.Wakes.{HasWordChanges};
ghost use Rattle.step_words.specs.Words.{IsOfMemories};
ghost use Rattle.step_runs.specs.Runs.{AtRun, IsRunOf, is_ordered as is_ordered_by};

use run_marks::{MarkNotes, notes_law};
use run_order::RunOrder;
use settling::{Found, ProcessRows, Scratch, StepValues, Store, run};
use std::sync::ledger::Ledger;
use step_counts::Steps;
use value_store::Queue;
use wake_list::WakeList;

/// Runs the processes of a wake list, which is empty then, each once in the order of the list, and puts their numbers into `ran` in
/// that order. `order` has the place of each process; those whose place is below `ordered` come after what they need, and only
/// what these make is kept. The marks take what the runs note. Each run is one step. It takes no memory, and for each process
/// the logarithm of their count for its place on the list, and time for what it watches, its targets and its body.
pub fn run_all<L: Ledger>(
    list: &mut WakeList,
    order: &RunOrder,
    ordered: usize,
    ran: &mut Queue<usize>,
    store: &mut Store,
    values: &mut StepValues,
    acted: &mut [bool],
    rows: &ProcessRows,
    found: &Found,
    scratch: &mut Scratch,
    notes: &mut MarkNotes,
    steps: &mut Steps<L>,
)
    requires count { list.old.count ≡ length rows.now.design.now.processes }
    requires settles { All (λ q. IsClocked (process_at (design_view rows.now.design.now) q.0) → ⊥) list.old.pairs }
    requires ran { length rows.now.design.now.processes ≤ ran.old.room }
    requires same { design_view store.old.design.now ≡ design_view rows.now.design.now }
    requires lawful { IsLawfulDesign (design_view rows.now.design.now) }
    requires rows { HasRows (design_view rows.now.design.now) rows.now.targets.now rows.now.written.now rows.now.wakes.now }
    requires known { (d : Design) × (k : Kept) × Knows d k store.old }
    requires fits { FitsSignals (design_view store.old.design.now) values.old }
    requires flags { length acted.old ≡ length rows.now.design.now.processes }
    requires things { length rows.now.design.now.signals + length rows.now.design.now.memories ≤ (state_of found.now.sets.now).tables.things }
    requires memories { IsOfMemories (design_view rows.now.design.now) found.now.words.now }
    requires changed { length rows.now.design.now.signals ≤ found.now.changed.now.size }
    requires room { (p : ℕ) → p < length rows.now.design.now.processes → length (row_at rows.now.targets.now p) ≤ length scratch.old.saved }
    requires none { scratch.old.pieces.items ≡ [] }
    requires parts { 128 ≤ scratch.old.pieces.room }
    requires marks { AreMarksOf notes.old.points.now notes.old.marks }
    ensures count { list.new.count ≡ list.old.count }
    ensures empty { list.new.pairs ≡ [] }
    ensures ran { ran.new.items ≡ map (λ q. q.0) list.old.pairs }
    ensures within { All (λ p. p < length rows.now.design.now.processes) ran.new.items }
    ensures places { ran.new.room ≡ ran.old.room }
    ensures same { design_view store.new.design.now ≡ design_view rows.now.design.now }
    ensures known { (d : Design) × (k : Kept) × Knows d k store.new }
    ensures fits { FitsSignals (design_view store.new.design.now) values.new }
    ensures flags { length acted.new ≡ length acted.old }
    ensures room { length scratch.new.saved ≡ length scratch.old.saved }
    ensures pieces { scratch.new.pieces ≡ scratch.old.pieces }
    ensures points { notes.new.points.now ≡ notes.old.points.now }
    ensures first { notes.new.written.first ≡ notes.old.written.first }
    ensures ranges { notes.new.written.ranges ≡ notes.old.written.ranges }
    ensures marks { AreMarksOf notes.new.points.now notes.new.marks }
    ensures steps { steps.new ≡ steps.old + length list.old.pairs }
    ensures step { (st : Closing) → IsRunOf st notes.old.points.now order.now ordered (map (λ q. q.0) list.old.pairs) rows.now.wakes.now rows.now.codes.now found.now.changed.now.items found.now.time
        → HasWordChanges st (settle_start st (clocked_run st)).kept found.now.words.now
        → AtStep st notes.old.points.now (settle_start st (clocked_run st)) store.old values.old (state_of found.now.sets.now) acted.old notes.old.marks
        → AtStep st notes.old.points.now (all_run st) store.new values.new (state_of found.now.sets.now) acted.new notes.new.marks }
{
    list.fitting();
    ran.clear();
    while let Some(process) = list.take() {
        ran.push(process as usize);
        let is_kept = is_ordered(order, ordered, process);
        run_next(
            process, is_kept, store, values, acted, rows, found, scratch, notes, steps,
        );
    }
}

/// Runs a process of the list, which is one step, and marks what it notes.
fn run_next<L: Ledger>(
    process: u32,
    is_ordered: bool,
    store: &mut Store,
    values: &mut StepValues,
    acted: &mut [bool],
    rows: &ProcessRows,
    found: &Found,
    scratch: &mut Scratch,
    notes: &mut MarkNotes,
    steps: &mut Steps<L>,
)
    requires place { process < length rows.now.design.now.processes }
    requires settles { IsClocked (process_at (design_view rows.now.design.now) process) → ⊥ }
    requires same { design_view store.old.design.now ≡ design_view rows.now.design.now }
    requires lawful { IsLawfulDesign (design_view rows.now.design.now) }
    requires rows { HasRows (design_view rows.now.design.now) rows.now.targets.now rows.now.written.now rows.now.wakes.now }
    requires known { (d : Design) × (k : Kept) × Knows d k store.old }
    requires fits { FitsSignals (design_view store.old.design.now) values.old }
    requires flags { length acted.old ≡ length rows.now.design.now.processes }
    requires things { length rows.now.design.now.signals + length rows.now.design.now.memories ≤ (state_of found.now.sets.now).tables.things }
    requires memories { IsOfMemories (design_view rows.now.design.now) found.now.words.now }
    requires changed { length rows.now.design.now.signals ≤ found.now.changed.now.size }
    requires room { length (row_at rows.now.targets.now process) ≤ length scratch.old.saved }
    requires none { scratch.old.pieces.items ≡ [] }
    requires parts { 128 ≤ scratch.old.pieces.room }
    requires marks { AreMarksOf notes.old.points.now notes.old.marks }
    ensures same { design_view store.new.design.now ≡ design_view rows.now.design.now }
    ensures known { (d : Design) × (k : Kept) × Knows d k store.new }
    ensures fits { FitsSignals (design_view store.new.design.now) values.new }
    ensures flags { length acted.new ≡ length acted.old }
    ensures room { length scratch.new.saved ≡ length scratch.old.saved }
    ensures pieces { scratch.new.pieces ≡ scratch.old.pieces }
    ensures points { notes.new.points.now ≡ notes.old.points.now }
    ensures first { notes.new.written.first ≡ notes.old.written.first }
    ensures ranges { notes.new.written.ranges ≡ notes.old.written.ranges }
    ensures marks { AreMarksOf notes.new.points.now notes.new.marks }
    ensures steps { steps.new ≡ steps.old + 1 }
    ensures step { (st : Closing) (w : Working) → AreApart notes.old.points.now → AreOnce notes.old.points.now
        → IsStepOf st process rows.now.wakes.now rows.now.codes.now found.now.changed.now.items found.now.time → is_touched st process ≡ true
        → AtRun st notes.old.points.now w store.old values.old found.now.words.now (state_of found.now.sets.now) acted.old notes.old.marks
        → AtRun st notes.old.points.now (run_settling st is_ordered process w) store.new values.new found.now.words.now (state_of found.now.sets.now) acted.new notes.new.marks }
{
    notes_law();
    notes.process = process;
    run(
        store,
        values,
        acted,
        rows,
        found,
        process as usize,
        is_ordered,
        scratch,
        notes,
        steps,
    );
}

/// Whether a process comes after what it needs: its place in the order is below `ordered`. It takes constant time.
fn is_ordered(order: &RunOrder, ordered: usize, process: u32) -> bool
    ensures { result ≡ is_ordered_by order.now ordered process }
{
    match order.rank(process as usize) {
        Some(place) => (place as usize) < ordered,
        None => false,
    }
}
