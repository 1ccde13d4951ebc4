ghost use Rattle.std.specs.Prelude.{◌≡◌, ◌<◌, ◌≤◌, ◌+◌, [], ℕ, length};
ghost use Rattle.design_model.specs.Design.{Design as PlainDesign, IsClocked, body_at, process_at};
ghost use Rattle.design_model.specs.Lawful.{IsLawfulDesign};
ghost use Rattle.design_model.specs.Mentions.{body_assigns};
ghost use Rattle.design_model.specs.View.{design_view};
ghost use Rattle.body_replay.specs.Runs.{runs_of};
ghost use Rattle.body_replay.specs.Store.{Kept};
ghost use Rattle.block_runs.specs.body_calls.Own.{is_in};
ghost use Rattle.block_runs.specs.Notes.{AddsNotes, way_of};
ghost use Rattle.replay_steps.specs.replay_model.Step.{plain_store};
ghost use Rattle.store_knowledge.specs.Knows.{Knows};

use block_runs::{BlockNotes, Certainty, Piece, run_body};
use body_replay::runs_lawful;
use design_model::Design;
use std::sync::ledger::Ledger;
use step_counts::Steps;
use store_knowledge::Store;
use value_store::Queue;

/// Runs the body of the Assign or Comb with this number, which is one step. `written` are the signals that it assigns;
/// `pieces` is scratch room. It takes no memory.
pub fn run_settled<N: BlockNotes, L: Ledger>(
    store: &mut Store,
    design: &Design,
    process: usize,
    written: &[u32],
    how: Certainty,
    pieces: &mut Queue<Piece>,
    notes: &mut N,
    steps: &mut Steps<L>,
)
    requires same { design_view store.old.design.now ≡ design_view design.now }
    requires lawful { IsLawfulDesign (design_view design.now) }
    requires place { process < length design.now.processes }
    requires settles { IsClocked (process_at (design_view design.now) process) → ⊥ }
    requires written { (x : ℕ) → is_in written.now x ≡ body_assigns x (body_at (design_view design.now) process) }
    requires known { (d : PlainDesign) × (k : Kept) × Knows d k store.old }
    requires none { pieces.old.items ≡ [] }
    requires scratch { 128 ≤ pieces.old.room }
    ensures design { design_view store.new.design.now ≡ design_view design.now }
    ensures knows { (d : PlainDesign) (k : Kept) → Knows d k store.old → Knows d (runs_of d process (plain_store k) (way_of how)).kept store.new }
    ensures notes { (d : PlainDesign) (k : Kept) → Knows d k store.old → AddsNotes N.noted notes.old (runs_of d process (plain_store k) (way_of how)).notes notes.new }
    ensures pieces { pieces.new ≡ pieces.old }
    ensures steps { steps.new ≡ steps.old + 1 }
{
    runs_lawful();
    store.holding();
    let processes = design.processes.as_slice();
    run_body(
        store,
        design,
        &processes[process],
        written,
        how,
        pieces,
        notes,
        steps,
    );
    store.holding();
}
