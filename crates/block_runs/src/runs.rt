//! The run of a block in one of the four ways.

ghost use Rattle.std.specs.Prelude.{◌≡◌, ◌≤◌, ◌+◌, ◌++◌, [], ℕ, List, true};
ghost use Rattle.std.specs.List.{All};
ghost use Rattle.design_model.specs.Design.{body, is_number};
ghost use Rattle.design_model.specs.Mentions.{body_assigns};
ghost use Rattle.design_model.specs.Shape.{is_body};
ghost use Rattle.design_model.specs.View.{design_view, process_view};
ghost use Rattle.body_calls.specs.Own.{IsOwn, IsOwnOutside, is_in};
ghost use Rattle.body_calls.specs.Under.{kept_with};
ghost use Rattle.assignments.specs.scene_laws.At.{flat};
ghost use Rattle.assignments.specs.Widths.{HasWidths};
ghost use Rattle.statement_replay.specs.open_tests.Weights.{HasRoomFor, queues};
ghost use Rattle.block_runs.specs.Met.{outcome_on};
ghost use Rattle.block_runs.specs.Notes.{AddsNotes};

use crate::strong::run_strong;
use crate::weak::run_weak;
use crate::{BlockNotes, Certainty};
use assignments::Piece;
use body_calls::Blocks;
use design_model::{Design, Process};
use std::sync::ledger::Ledger;
use step_counts::Steps;
use value_store::Queue;

/// Runs the body of a process of the design in this way, which is one step. What is kept, what is queued and what is noted are
/// those of the definition of a run. The things of `written` are all that the body assigns; no part of an assignment is left in
/// `pieces`, which is scratch room. It takes no memory.
pub fn run_body<S: Blocks, N: BlockNotes, L: Ledger>(
    store: &mut S,
    design: &Design,
    process: &Process,
    written: &[u32],
    how: Certainty,
    pieces: &mut Queue<Piece>,
    notes: &mut N,
    steps: &mut Steps<L>,
)
    requires same { (S.scene store.old).design ≡ design_view design.now }
    requires lawful { is_body (S.scene store.old).design (body (process_view process.now)) ≡ true }
    requires widths { HasWidths (S.scene store.old).design }
    requires numbers { All (λ x. is_number (S.scene store.old).design x ≡ true) written.now }
    requires written { (x : ℕ) → body_assigns x (body (process_view process.now)) ≡ true → is_in written.now x ≡ true }
    requires outside { S.around store.old ≡ [] }
    requires room { HasRoomFor (body (process_view process.now)) [] (S.rooms store.old) }
    requires kept_own { IsOwn (kept_with (S.under store.old) (S.scene store.old)) }
    requires read_own { IsOwn (S.scene store.old) }
    requires none { pieces.old.items ≡ [] }
    requires scratch { 128 ≤ pieces.old.room }
    ensures kept { (kept_with (S.under store.new) (S.scene store.new)).kept ≡ (outcome_on (S.under store.old) (S.scene store.old) (process_view process.now) how).kept }
    ensures queued { S.queued store.new ≡ S.queued store.old ++ flat (outcome_on (S.under store.old) (S.scene store.old) (process_view process.now) how).queue }
    ensures notes { AddsNotes N.noted notes.old (outcome_on (S.under store.old) (S.scene store.old) (process_view process.now) how).notes notes.new }
    ensures own { IsOwn (kept_with (S.under store.new) (S.scene store.new)) }
    ensures design { (S.scene store.new).design ≡ (S.scene store.old).design }
    ensures hidden { (S.under store.new).hidden ≡ (S.under store.old).hidden }
    ensures around { S.around store.new ≡ [] }
    ensures size { (S.under store.new).log ≡ (S.under store.old).log }
    ensures log { (S.rooms store.new).log ≡ (S.under store.old).log }
    ensures takes { (S.rooms store.new).takes ≡ (S.rooms store.old).takes }
    ensures queue { (S.rooms store.old).queue ≤ (S.rooms store.new).queue + queues (body (process_view process.now)) }
    ensures pieces { pieces.new ≡ pieces.old }
    ensures steps { steps.new ≡ steps.old + 1 }
{
    steps.count();
    run_in_way(store, design, process, how, pieces, notes);
    store.end_run(written);
}

/// The same before the run is ended: what the body assigns may have the blames of the run.
fn run_in_way<S: Blocks, N: BlockNotes>(
    store: &mut S,
    design: &Design,
    process: &Process,
    how: Certainty,
    pieces: &mut Queue<Piece>,
    notes: &mut N,
)
    requires same { (S.scene store.old).design ≡ design_view design.now }
    requires lawful { is_body (S.scene store.old).design (body (process_view process.now)) ≡ true }
    requires widths { HasWidths (S.scene store.old).design }
    requires outside { S.around store.old ≡ [] }
    requires room { HasRoomFor (body (process_view process.now)) [] (S.rooms store.old) }
    requires kept_own { IsOwn (kept_with (S.under store.old) (S.scene store.old)) }
    requires read_own { IsOwn (S.scene store.old) }
    requires none { pieces.old.items ≡ [] }
    requires scratch { 128 ≤ pieces.old.room }
    ensures kept { (kept_with (S.under store.new) (S.scene store.new)).kept ≡ (outcome_on (S.under store.old) (S.scene store.old) (process_view process.now) how).kept }
    ensures queued { S.queued store.new ≡ S.queued store.old ++ flat (outcome_on (S.under store.old) (S.scene store.old) (process_view process.now) how).queue }
    ensures notes { AddsNotes N.noted notes.old (outcome_on (S.under store.old) (S.scene store.old) (process_view process.now) how).notes notes.new }
    ensures own { (xs : List ℕ) → ((x : ℕ) → body_assigns x (body (process_view process.now)) ≡ true → is_in xs x ≡ true) → IsOwnOutside xs (kept_with (S.under store.new) (S.scene store.new)) }
    ensures design { (S.scene store.new).design ≡ (S.scene store.old).design }
    ensures hidden { (S.under store.new).hidden ≡ (S.under store.old).hidden }
    ensures around { S.around store.new ≡ [] }
    ensures size { (S.under store.new).log ≡ (S.under store.old).log }
    ensures takes { (S.rooms store.new).takes ≡ (S.rooms store.old).takes }
    ensures queue { (S.rooms store.old).queue ≤ (S.rooms store.new).queue + queues (body (process_view process.now)) }
    ensures pieces { pieces.new ≡ pieces.old }
{
    if how.is_weak() {
        run_weak(store, design, process, how, pieces, notes);
    } else {
        run_strong(store, process, how, pieces, notes);
    }
}
