//! The run of an Assign, or of a Comb that has acted, in the first step of a stretch.

ghost use Rattle.std.specs.Prelude.{◌≡◌, ◌<◌, ◌≤◌, ◌+◌, [], ℕ, Bool, length, true};
ghost use Rattle.event_machine.specs.Cell.{Values};
ghost use Rattle.four_state.specs.declared.bit.Bit.{Bit};
ghost use Rattle.design_model.specs.Design.{Design, IsClocked, process_at};
ghost use Rattle.design_model.specs.Lawful.{IsLawfulDesign};
ghost use Rattle.design_model.specs.View.{design_view};
ghost use Rattle.body_replay.specs.Runs.{runs_of};
ghost use Rattle.body_replay.specs.Store.{Kept};
ghost use Rattle.index_sets.specs.Rows.{row_at};
ghost use Rattle.step_parts.specs.replay_model.Start.{Starting, run_first as run_first_of, runs_first};
ghost use Rattle.step_parts.specs.replay_model.Step.{Replay};
ghost use Rattle.step_parts.specs.replay_model.Tables.{Tables};
ghost use Rattle.settled_runs.specs.store_knowledge.Knows.{Knows};
ghost use Rattle.settled_targets.specs.step_values.Loose.{has_code};
ghost use Rattle.settled_targets.specs.step_values.Vectors.{FitsSignals};
ghost use Rattle.settling.specs.First.{AtFirst};
ghost use Rattle.settling.specs.Runs.{HasRows};

use crate::settled::run_saved;
use crate::{ProcessRows, Scratch};
use body_replay::runs_lawful;
use body_store::Store;
use settled_runs::{BlockNotes, Certainty, Doubt};
use settled_targets::StepValues;
use std::sync::ledger::Ledger;
use step_counts::Steps;
use term_replay::Spot;

/// Runs an Assign, or a Comb that has acted, in the first step of a stretch, which is one step. What it makes of the signals that the
/// dump does not have is kept where it is ordered, and else nothing is known of that; what it makes of the others is what was made
/// of them. Nothing is noted. It takes time for its targets and its body, and no memory.
pub fn run_first<L: Ledger>(
    store: &mut Store,
    values: &mut StepValues,
    rows: &ProcessRows,
    process: usize,
    is_ordered: bool,
    scratch: &mut Scratch,
    steps: &mut Steps<L>,
)
    requires same { design_view store.old.design.now ≡ design_view rows.now.design.now }
    requires lawful { IsLawfulDesign (design_view rows.now.design.now) }
    requires place { process < length rows.now.design.now.processes }
    requires settles { IsClocked (process_at (design_view rows.now.design.now) process) → ⊥ }
    requires rows { HasRows (design_view rows.now.design.now) rows.now.targets.now rows.now.written.now rows.now.wakes.now }
    requires known { (d : Design) × (k : Kept) × Knows d k store.old }
    requires fits { FitsSignals (design_view store.old.design.now) values.old }
    requires room { length (row_at rows.now.targets.now process) ≤ length scratch.old.saved }
    requires none { scratch.old.pieces.items ≡ [] }
    requires parts { 128 ≤ scratch.old.pieces.room }
    ensures same { design_view store.new.design.now ≡ design_view rows.now.design.now }
    ensures known { (d : Design) × (k : Kept) × Knows d k store.new }
    ensures fits { FitsSignals (design_view store.new.design.now) values.new }
    ensures step { (d : Design) (bound : ℕ → Bool) (tables : Tables) (new : Values Bit) (before : Replay) (w : Starting) → ((s : ℕ) → bound s ≡ has_code rows.now.codes.now s)
        → runs_first d bound (runs_of d) tables new before process ≡ true → AtFirst d bound w store.old values.old
        → AtFirst d bound (run_first_of d bound (runs_of d) tables new before is_ordered process w) store.new values.new }
    ensures room { length scratch.new.saved ≡ length scratch.old.saved }
    ensures pieces { scratch.new.pieces ≡ scratch.old.pieces }
    ensures steps { steps.new ≡ steps.old + 1 }
{
    runs_lawful();
    let mut notes = Unnoted;
    run_saved(
        store,
        rows,
        process,
        Certainty::Quiet,
        scratch,
        &mut notes,
        steps,
    );
    scratch.saved.put_back(
        store,
        values,
        rows.targets.row(process),
        rows.codes,
        is_ordered,
        true,
    );
}

/// A sink that keeps nothing.
#[derive(Drop)]
struct Unnoted;

impl BlockNotes for Unnoted {
    ghost use Rattle.std.specs.Prelude.{⊤};

    ghost Start = { ⊤ };

    ghost noted = { λ start ns x. ⊤ };

    fn note(&mut self, _spot: Spot, _doubt: Option<Doubt>) {}
}
