//! The run of a block that surely runs, or that runs if a thing has changed.

ghost use Rattle.std.specs.Prelude.{◌≡◌, ◌≤◌, ◌++◌, [], ℕ, List, true};
ghost use Rattle.design_model.specs.Design.{body};
ghost use Rattle.design_model.specs.Mentions.{body_assigns};
ghost use Rattle.design_model.specs.Shape.{is_body};
ghost use Rattle.design_model.specs.View.{process_view};
ghost use Rattle.body_replay.specs.Contract.{strong_outcome};
ghost use Rattle.body_replay.specs.Runs.{own_store};
ghost use Rattle.body_calls.specs.Own.{IsOwn, IsOwnOutside, is_in};
ghost use Rattle.body_calls.specs.Under.{kept_with};
ghost use Rattle.assignments.specs.scene_laws.At.{flat};
ghost use Rattle.assignments.specs.Widths.{HasWidths};
ghost use Rattle.statement_replay.specs.open_tests.Weights.{HasRoomFor, LeavesBy};
ghost use Rattle.block_runs.specs.Met.{met};
ghost use Rattle.block_runs.specs.Notes.{AddsNotes, way_of};

use crate::by_way::ByWay;
use crate::process::run_process;
use crate::{BlockNotes, Certainty};
use assignments::Piece;
use body_calls::Bodies;
use design_model::Process;
use value_store::Queue;

/// Runs the body of a process on what bodies read, and notes its marks in this way. What it assigns has the blames of the run
/// afterwards.
pub(crate) fn run_strong<B: Bodies, N: BlockNotes>(
    store: &mut B,
    process: &Process,
    how: Certainty,
    pieces: &mut Queue<Piece>,
    notes: &mut N,
)
    requires lawful { is_body (B.scene store.old).design (body (process_view process.now)) ≡ true }
    requires widths { HasWidths (B.scene store.old).design }
    requires room { HasRoomFor (body (process_view process.now)) (B.around store.old) (B.rooms store.old) }
    requires kept_own { IsOwn (kept_with (B.under store.old) (B.scene store.old)) }
    requires read_own { IsOwn (B.scene store.old) }
    requires none { pieces.old.items ≡ [] }
    requires scratch { 128 ≤ pieces.old.room }
    ensures kept { (kept_with (B.under store.new) (B.scene store.new)).kept ≡ (strong_outcome (B.scene store.old).design (body (process_view process.now)) (own_store (met (B.under store.old) (B.scene store.old))) (way_of how)).kept }
    ensures queued { B.queued store.new ≡ B.queued store.old ++ flat (strong_outcome (B.scene store.old).design (body (process_view process.now)) (own_store (met (B.under store.old) (B.scene store.old))) (way_of how)).queue }
    ensures notes { AddsNotes N.noted notes.old (strong_outcome (B.scene store.old).design (body (process_view process.now)) (own_store (met (B.under store.old) (B.scene store.old))) (way_of how)).notes notes.new }
    ensures own { (xs : List ℕ) → ((x : ℕ) → body_assigns x (body (process_view process.now)) ≡ true → is_in xs x ≡ true) → IsOwnOutside xs (kept_with (B.under store.new) (B.scene store.new)) }
    ensures design { (B.scene store.new).design ≡ (B.scene store.old).design }
    ensures around { B.around store.new ≡ B.around store.old }
    ensures under { B.under store.new ≡ B.under store.old }
    ensures rooms { LeavesBy (body (process_view process.now)) (B.around store.old) (B.rooms store.old) (B.rooms store.new) }
    ensures pieces { pieces.new ≡ pieces.old }
{
    let mut sink = ByWay { how, notes };
    run_process(store, process, pieces, &mut sink);
}
