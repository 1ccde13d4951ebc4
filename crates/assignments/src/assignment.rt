//! An assignment (IEEE 1364-2001, clauses 9.2.1 and 9.2.2).

ghost use Rattle.std.specs.Prelude.{◌≡◌, ◌≤◌, [], true};
ghost use Rattle.design_model.specs.Design.{Design, nowhere};
ghost use Rattle.design_model.specs.Shape.{is_body};
ghost use Rattle.design_model.specs.Tree as t;
ghost use Rattle.design_model.specs.View.{target_view, term_view};
ghost use Rattle.value_store.specs.body_replay.Replay.{State, run_set};
ghost use Rattle.scene_laws.specs.body_calls.Rooms.{Leaves, takes_in};
ghost use Rattle.scene_laws.specs.At.{IsState};
ghost use Rattle.assignments.specs.Takes.{HasRoom, set_logs, set_queues};
ghost use Rattle.assignments.specs.Widths.{HasWidths};

use crate::Piece;
use crate::parts::{make, note_written};
use crate::target::locate;
use design_model::{Target, Term};
use scene_laws::{Bodies, Notes, Progress, Spot, evaluate};
use value_store::Queue;

/// Makes an assignment: evaluates the indexes of its target and its value, notes the words that are written, and writes the
/// parts, or queues them. In a branch of an undecided test what is queued is not certain. No part of an earlier assignment is
/// left in `pieces`, which is scratch room. What is returned is the first read of the run that was not wholly sure.
pub fn assign<B: Bodies, N: Notes>(
    store: &mut B,
    line: u32,
    blocking: bool,
    target: &Target,
    value: &Term,
    run: Progress,
    pieces: &mut Queue<Piece>,
    notes: &mut N,
) -> Option<u32>
    requires lawful { is_body (B.scene store.old).design (t.set nowhere line blocking (target_view target.now) (term_view value.now)) ≡ true }
    requires widths { HasWidths (B.scene store.old).design }
    requires room { HasRoom (set_logs (takes_in (B.around store.old) (B.rooms store.old)) blocking (target_view target.now)) (set_queues blocking (target_view target.now)) (B.rooms store.old) }
    requires none { pieces.old.items ≡ [] }
    requires scratch { 128 ≤ pieces.old.room }
    ensures state { (start : N.Start) (d : Design) (a : State) → IsState d a run.first (B.scene store.old) (B.queued store.old) (λ ms. N.noted start ms notes.old) → IsState d (run_set d run.mode line blocking (target_view target.now) (term_view value.now) a) result (B.scene store.new) (B.queued store.new) (λ ms. N.noted start ms notes.new) }
    ensures design { (B.scene store.new).design ≡ (B.scene store.old).design }
    ensures around { B.around store.new ≡ B.around store.old }
    ensures under { B.under store.new ≡ B.under store.old }
    ensures rooms { Leaves (set_logs (takes_in (B.around store.old) (B.rooms store.old)) blocking (target_view target.now)) (set_queues blocking (target_view target.now)) (B.rooms store.old) (B.rooms store.new) }
    ensures pieces { pieces.new ≡ pieces.old }
{
    notes.note(Spot::Line(line), run.mode);
    let first = locate(store, target, run, pieces, notes);
    let found = evaluate(store, value, run.after(first), notes);
    note_written(store, pieces.as_slice(), run.mode, notes);
    let certain = run.mode.is_none();
    make(store, pieces.as_slice(), &found.value, blocking, certain);
    pieces.clear();
    found.first
}
