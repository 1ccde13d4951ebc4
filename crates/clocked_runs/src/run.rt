ghost use Rattle.std.specs.Prelude.{◌≡◌, ◌<◌, ◌≤◌, ◌+◌, ◌∷◌, ◌++◌, [], ℕ, List, length};
ghost use Rattle.design_model.specs.Design.{Design as PlainDesign, body_at};
ghost use Rattle.design_model.specs.Lawful.{IsLawfulDesign};
ghost use Rattle.design_model.specs.Mentions.{body_assigns};
ghost use Rattle.design_model.specs.View.{design_view};
ghost use Rattle.run_views.specs.body_replay.Runs.{StoreView, runs_of};
ghost use Rattle.run_views.specs.body_replay.Store.{KnownWrite};
ghost use Rattle.block_runs.specs.body_calls.Own.{is_in};
ghost use Rattle.block_runs.specs.Notes.{AddsNotes, way_of};
ghost use Rattle.store_knowledge.specs.scene_laws.At.{flat};
ghost use Rattle.run_views.specs.Meets.{plain_view};
ghost use Rattle.clocked_runs.specs.CanRun.{CanRun};

use block_runs::{BlockNotes, Certainty, Piece, run_body};
use design_model::Design;
use run_views::{Store, show_kept};
use std::sync::ledger::Ledger;
use step_counts::Steps;
use value_store::Queue;

/// Runs the body of the process with this number, which is one step. Afterwards bodies read what is kept. `written` are the
/// signals and memories that it assigns; `pieces` is scratch room. It takes no memory.
pub fn run_block<N: BlockNotes, L: Ledger>(
    store: &mut Store,
    design: &Design,
    process: usize,
    written: &[u32],
    how: Certainty,
    pieces: &mut Queue<Piece>,
    notes: &mut N,
    steps: &mut Steps<L>,
)
    requires same { design_view store.old.design.now ≡ design_view design.now }
    requires lawful { IsLawfulDesign (design_view design.now) }
    requires place { process < length design.now.processes }
    requires written { (x : ℕ) → is_in written.now x ≡ body_assigns x (body_at (design_view design.now) process) }
    requires ready { (d : PlainDesign) × (v : StoreView) × (ws : List KnownWrite) × (ps : List ℕ) × CanRun d v ws (process ∷ ps) store.old }
    requires none { pieces.old.items ≡ [] }
    requires scratch { 128 ≤ pieces.old.room }
    ensures design { design_view store.new.design.now ≡ design_view design.now }
    ensures runs { (d : PlainDesign) (v : StoreView) (ws : List KnownWrite) (ps : List ℕ) → CanRun d v ws (process ∷ ps) store.old
        → CanRun d (plain_view (runs_of d process v (way_of how)).kept) (ws ++ flat (runs_of d process v (way_of how)).queue) ps store.new }
    ensures notes { (d : PlainDesign) (v : StoreView) (ws : List KnownWrite) (ps : List ℕ) → CanRun d v ws (process ∷ ps) store.old
        → AddsNotes N.noted notes.old (runs_of d process v (way_of how)).notes notes.new }
    ensures pieces { pieces.new ≡ pieces.old }
    ensures steps { steps.new ≡ steps.old + 1 }
{
    store.holding();
    let processes = design.processes.as_slice();
    run_body(
        store,
        design,
        &processes[process],
        written,
        how,
        pieces,
        notes,
        steps,
    );
    store.holding();
    show_kept(store);
}
