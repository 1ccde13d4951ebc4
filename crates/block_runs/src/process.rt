ghost use Rattle.std.specs.Prelude.{◌≡◌, ◌≤◌, [], None, true};
ghost use Rattle.design_model.specs.Design.{Design, body};
ghost use Rattle.design_model.specs.Shape.{is_body};
ghost use Rattle.design_model.specs.View.{process_view};
ghost use Rattle.body_replay.specs.Replay.{State, run as run_of};
ghost use Rattle.assignments.specs.scene_laws.At.{IsState};
ghost use Rattle.assignments.specs.Widths.{HasWidths};
ghost use Rattle.statement_replay.specs.open_tests.Weights.{HasRoomFor, LeavesBy};

use assignments::{Piece, assign};
use body_calls::Bodies;
use design_model::Process;
use statement_replay::run_statement;
use term_replay::{Notes, Progress};
use value_store::Queue;

/// Runs the body of a process. That of an `Assign` is its one assignment, at line 0, which is the number of no line point.
pub(crate) fn run_process<B: Bodies, N: Notes>(
    store: &mut B,
    process: &Process,
    pieces: &mut Queue<Piece>,
    notes: &mut N,
)
    requires lawful { is_body (B.scene store.old).design (body (process_view process.now)) ≡ true }
    requires widths { HasWidths (B.scene store.old).design }
    requires room { HasRoomFor (body (process_view process.now)) (B.around store.old) (B.rooms store.old) }
    requires none { pieces.old.items ≡ [] }
    requires scratch { 128 ≤ pieces.old.room }
    ensures state { (start : N.Start) (d : Design) (a : State) → IsState d a None (B.scene store.old) (B.queued store.old) (λ ms. N.noted start ms notes.old) → IsState d (run_of d (body (process_view process.now)) None a) (run_of d (body (process_view process.now)) None a).first (B.scene store.new) (B.queued store.new) (λ ms. N.noted start ms notes.new) }
    ensures design { (B.scene store.new).design ≡ (B.scene store.old).design }
    ensures around { B.around store.new ≡ B.around store.old }
    ensures under { B.under store.new ≡ B.under store.old }
    ensures rooms { LeavesBy (body (process_view process.now)) (B.around store.old) (B.rooms store.old) (B.rooms store.new) }
    ensures pieces { pieces.new ≡ pieces.old }
{
    let run = Progress {
        mode: None,
        first: None,
    };
    match process {
        Process::Assign { target, value, .. } => {
            assign(store, 0, true, target, value, run, pieces, notes);
        }
        Process::Comb { body, .. } | Process::Clocked { body, .. } => {
            run_statement(store, body, run, pieces, notes);
        }
    }
}
