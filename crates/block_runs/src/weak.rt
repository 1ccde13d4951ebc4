//! The run of a block that may run any number of times, on any values.

ghost use Rattle.std.specs.Prelude.{◌≡◌, ◌≤◌, ◌+◌, ◌++◌, [], map, true};
ghost use Rattle.design_model.specs.Design.{body};
ghost use Rattle.design_model.specs.Shape.{is_body};
ghost use Rattle.design_model.specs.View.{design_view, process_view};
ghost use Rattle.body_replay.specs.Contract.{body_spots, notes_of, weak_queue, weak_writes};
ghost use Rattle.body_replay.specs.Replay.{hit};
ghost use Rattle.body_replay.specs.Store.{keep_all};
ghost use Rattle.body_calls.specs.Own.{IsOwn};
ghost use Rattle.body_calls.specs.Under.{kept_with};
ghost use Rattle.assignments.specs.Widths.{HasWidths};
ghost use Rattle.statement_replay.specs.open_tests.Weights.{queues};
ghost use Rattle.block_runs.specs.Notes.{AddsNotes, way_of};

use crate::by_way::ByWay;
use crate::{BlockNotes, Certainty};
use assignments::Piece;
use body_calls::Blocks;
use body_spots::note_spots;
use design_model::{Design, Process};
use value_store::Queue;
use weak_runs::write_body;

/// Makes all writes of the body of a process, none of them certain, and notes all its spots in this way.
pub(crate) fn run_weak<S: Blocks, N: BlockNotes>(
    store: &mut S,
    design: &Design,
    process: &Process,
    how: Certainty,
    pieces: &mut Queue<Piece>,
    notes: &mut N,
)
    requires same { (S.scene store.old).design ≡ design_view design.now }
    requires lawful { is_body (S.scene store.old).design (body (process_view process.now)) ≡ true }
    requires widths { HasWidths (S.scene store.old).design }
    requires outside { S.around store.old ≡ [] }
    requires room { queues (body (process_view process.now)) ≤ (S.rooms store.old).queue }
    requires kept_own { IsOwn (kept_with (S.under store.old) (S.scene store.old)) }
    requires none { pieces.old.items ≡ [] }
    requires scratch { 128 ≤ pieces.old.room }
    ensures kept { (kept_with (S.under store.new) (S.scene store.new)).kept ≡ keep_all (kept_with (S.under store.old) (S.scene store.old)).kept (weak_writes (S.scene store.old).design (body (process_view process.now))) }
    ensures queued { S.queued store.new ≡ S.queued store.old ++ weak_queue (S.scene store.old).design (body (process_view process.now)) }
    ensures notes { AddsNotes N.noted notes.old (notes_of (way_of how) (map hit (body_spots (S.scene store.old).design (body (process_view process.now))))) notes.new }
    ensures own { IsOwn (kept_with (S.under store.new) (S.scene store.new)) }
    ensures design { (S.scene store.new).design ≡ (S.scene store.old).design }
    ensures hidden { (S.under store.new).hidden ≡ (S.under store.old).hidden }
    ensures around { S.around store.new ≡ [] }
    ensures size { (S.under store.new).log ≡ (S.under store.old).log }
    ensures takes { (S.rooms store.new).takes ≡ (S.rooms store.old).takes }
    ensures queue { (S.rooms store.old).queue ≤ (S.rooms store.new).queue + queues (body (process_view process.now)) }
    ensures pieces { pieces.new ≡ pieces.old }
{
    write_body(store, process, pieces);
    let mut sink = ByWay { how, notes };
    note_spots(design, process, &mut sink);
}
