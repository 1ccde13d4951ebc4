//! The run of the body of a process.

ghost use Rattle.std.specs.Prelude.{◌≡◌, ◌<◌, ◌≤◌, [], ℕ, IfSome, length, true};
ghost use Rattle.std.specs.List.{All};
ghost use Rattle.design_model.specs.Design.{body, body_at, is_number};
ghost use Rattle.design_model.specs.View.{design_view, process_view};
ghost use Rattle.body_calls.specs.Own.{is_in};
ghost use Rattle.body_store.specs.Scenes.{scene_of};
ghost use Rattle.body_trials.specs.Ready.{IsReady};

use crate::marks::Marks;
use assignments::{Piece, widths_law};
use block_runs::{Certainty, run_body};
use body_store::{Store, own_law, views_law};
use design_model::{Design, Process};
use std::sync::ledger::{Blank, Ledger};
use step_counts::Steps;
use value_store::Queue;

/// The process with this number.
pub(crate) fn process_at(design: &Design, number: usize) -> Option<&Process>
    ensures body { IfSome result (λ process. body (process_view process.now) ≡ body_at (design_view design.now) number) }
    ensures place { IfSome result (λ process. number < length design.now.processes) }
{
    design.processes.get(number)
}

/// Runs the body of the process with this number, which counts as one step.
pub(crate) fn run_process<L: Ledger>(
    store: &mut Store,
    design: &Design,
    number: usize,
    process: &Process,
    things: &Vec<u32>,
    how: Certainty,
    pieces: &mut Queue<Piece>,
    marks: &mut Marks,
    blank: Blank,
)
    requires ready { IsReady design.now store.old }
    requires place { number < length design.now.processes }
    requires body { body (process_view process.now) ≡ body_at (design_view design.now) number }
    requires numbers { All (λ x. is_number (design_view design.now) x ≡ true) things.now.items }
    requires all { (x : ℕ) → is_number (design_view design.now) x ≡ true → is_in things.now.items x ≡ true }
    requires none { pieces.old.items ≡ [] }
    requires scratch { 128 ≤ pieces.old.room }
    requires name { blank.name ≡ L.name }
    requires parts { blank.parts ≡ L.parts }
    requires some { 0 < blank.parts }
    ensures { (scene_of store.new).design ≡ design_view design.now }
{
    let mut steps = Steps::<L>::new(blank);
    widths_law();
    own_law();
    views_law();
    run_body(
        store,
        design,
        process,
        things.as_slice(),
        how,
        pieces,
        marks,
        &mut steps,
    );
}
