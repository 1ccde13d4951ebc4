ghost use Rattle.std.specs.Prelude.{◌≡◌, ◌<◌, ◌≤◌, ◌+◌, ◌∷◌, [], ℕ, List, None, Some, length};
ghost use Rattle.design_model.specs.Design.{body_at};
ghost use Rattle.design_model.specs.Lawful.{IsLawfulDesign};
ghost use Rattle.design_model.specs.Mentions.{body_assigns};
ghost use Rattle.design_model.specs.View.{design_view};
ghost use Rattle.clocked_runs.specs.block_runs.body_calls.Own.{is_in};
ghost use Rattle.clocked_runs.specs.block_runs.Notes.{AddsNotes};
ghost use Rattle.clocked_runs.specs.run_views.body_replay.Contract.{Note, weak};
ghost use Rattle.entry_values.specs.replay_model.Step.{Closing, Working, plain_store, run_weak as weak_run};
ghost use Rattle.clocked_block.specs.OneRun.{AtRuns, IsRunBy};

use clocked_runs::{BlockNotes, Certainty, Piece, Store, run_block};
use design_model::Design;
use std::sync::ledger::Ledger;
use step_counts::Steps;
use value_store::Queue;

/// Runs the block with this number that can wake, first by this signal, and is not clean, which is one step. Each write of its
/// text may be made, and all that it may visit is in doubt by the signal. The step ends at this time. It takes no memory.
pub fn run_weak<N: BlockNotes, L: Ledger>(
    store: &mut Store,
    design: &Design,
    process: usize,
    waker: u32,
    written: &[u32],
    time: u64,
    pieces: &mut Queue<Piece>,
    notes: &mut N,
    steps: &mut Steps<L>,
)
    requires same { design_view store.old.design.now ≡ design_view design.now }
    requires lawful { IsLawfulDesign (design_view design.now) }
    requires place { process < length design.now.processes }
    requires written { (x : ℕ) → is_in written.now x ≡ body_assigns x (body_at (design_view design.now) process) }
    requires ready { (st : Closing) × (w : Working) × (ps : List ℕ) × AtRuns st w (process ∷ ps) store.old }
    requires none { pieces.old.items ≡ [] }
    requires scratch { 128 ≤ pieces.old.room }
    ensures design { design_view store.new.design.now ≡ design_view design.now }
    ensures runs { (st : Closing) (w : Working) (ps : List ℕ) → IsRunBy st time → AtRuns st w (process ∷ ps) store.old
        → AtRuns st (weak_run st None (Some waker) process w) ps store.new }
    ensures notes { (st : Closing) (w : Working) (ps : List ℕ) → IsRunBy st time → AtRuns st w (process ∷ ps) store.old
        → AddsNotes N.noted notes.old (st.run process (plain_store w.kept) (weak st.time waker)).notes notes.new }
    ensures took { (ns : List Note) × AddsNotes N.noted notes.old ns notes.new }
    ensures pieces { pieces.new ≡ pieces.old }
    ensures steps { steps.new ≡ steps.old + 1 }
{
    run_block(
        store,
        design,
        process,
        written,
        Certainty::Weak { time, thing: waker },
        pieces,
        notes,
        steps,
    );
}
