//! The runs in the first step of a stretch.

ghost use Rattle.std.specs.Prelude.{◌≡◌, ◌<◌, ◌≤◌, ◌+◌, ◌++◌, ◌∷◌, [], ℕ, Bool, length};
ghost use Rattle.std.specs.List.{All};
ghost use Rattle.event_machine.specs.Cell.{Values};
ghost use Rattle.four_state.specs.declared.bit.Bit.{Bit};
ghost use Rattle.design_model.specs.Design.{Design};
ghost use Rattle.design_model.specs.Lawful.{IsLawfulDesign};
ghost use Rattle.design_model.specs.View.{design_view, process_view};
ghost use Rattle.body_replay.specs.Runs.{runs_of};
ghost use Rattle.body_replay.specs.Store.{Kept};
ghost use Rattle.index_sets.specs.Rows.{row_at};
ghost use Rattle.process_order.specs.replay_model.Start.{Starting, run_all_first, run_first as run_first_of};
ghost use Rattle.process_order.specs.replay_model.Step.{Replay};
ghost use Rattle.process_order.specs.replay_model.Tables.{Tables};
ghost use Rattle.settling.specs.store_knowledge.Knows.{Knows};
ghost use Rattle.settling.specs.step_values.Loose.{has_code};
ghost use Rattle.settling.specs.step_values.Vectors.{FitsSignals};
ghost use Rattle.settling.specs.First.{AtFirst};
ghost use Rattle.settling.specs.Runs.{HasRows};
ghost use Rattle.first_step.specs.Begun.{AreActed, all_left, flag_of, is_left_by};

use body_store::Store;
use design_model::Process;
use settling::{ProcessRows, Scratch, StepValues, run_first};
use std::sync::ledger::Ledger;
use step_counts::Steps;
use value_store::Queue;

/// Runs those of some processes that are Assigns, or Combs that have acted, in order, and puts their numbers after those that
/// ran. Each run is one step.
/// `is_ordered` says whether what they make is kept. It takes time for the processes, and for the targets and bodies of those that run.
pub(crate) fn run_all_left<L: Ledger>(
    store: &mut Store,
    values: &mut StepValues,
    rows: &ProcessRows,
    processes: &[u32],
    is_ordered: bool,
    acted: &[bool],
    ran: &mut Queue<usize>,
    scratch: &mut Scratch,
    steps: &mut Steps<L>,
)
    requires places { All (λ p. p < length rows.now.design.now.processes) processes.now }
    requires ran { length ran.old.items + length processes.now ≤ ran.old.room }
    requires same { design_view store.old.design.now ≡ design_view rows.now.design.now }
    requires lawful { IsLawfulDesign (design_view rows.now.design.now) }
    requires rows { HasRows (design_view rows.now.design.now) rows.now.targets.now rows.now.written.now rows.now.wakes.now }
    requires known { (d : Design) × (k : Kept) × Knows d k store.old }
    requires fits { FitsSignals (design_view store.old.design.now) values.old }
    requires room { (p : ℕ) → p < length rows.now.design.now.processes → length (row_at rows.now.targets.now p) ≤ length scratch.old.saved }
    requires none { scratch.old.pieces.items ≡ [] }
    requires parts { 128 ≤ scratch.old.pieces.room }
    ensures same { design_view store.new.design.now ≡ design_view rows.now.design.now }
    ensures known { (d : Design) × (k : Kept) × Knows d k store.new }
    ensures fits { FitsSignals (design_view store.new.design.now) values.new }
    ensures ran { ran.new.items ≡ ran.old.items ++ all_left (design_view rows.now.design.now) acted.now processes.now }
    ensures free { ran.new.room ≡ ran.old.room }
    ensures room { length scratch.new.saved ≡ length scratch.old.saved }
    ensures pieces { scratch.new.pieces ≡ scratch.old.pieces }
    ensures steps { steps.new ≡ steps.old + length (all_left (design_view rows.now.design.now) acted.now processes.now) }
    ensures step { (d : Design) (bound : ℕ → Bool) (tables : Tables) (new : Values Bit) (before : Replay) (w : Starting) → ((s : ℕ) → bound s ≡ has_code rows.now.codes.now s) → AreActed d acted.now before
        → AtFirst d bound w store.old values.old
        → AtFirst d bound (run_all_first d bound (runs_of d) tables new before is_ordered processes.now w) store.new values.new }
{
    for process in processes {
        run_if_left(
            store,
            values,
            rows,
            *process as usize,
            is_ordered,
            acted,
            ran,
            scratch,
            steps,
        );
    }
}

/// Runs a process if it is an Assign or a Comb that has acted, and puts its number after those that ran.
fn run_if_left<L: Ledger>(
    store: &mut Store,
    values: &mut StepValues,
    rows: &ProcessRows,
    process: usize,
    is_ordered: bool,
    acted: &[bool],
    ran: &mut Queue<usize>,
    scratch: &mut Scratch,
    steps: &mut Steps<L>,
)
    requires place { process < length rows.now.design.now.processes }
    requires ran { length ran.old.items < ran.old.room }
    requires same { design_view store.old.design.now ≡ design_view rows.now.design.now }
    requires lawful { IsLawfulDesign (design_view rows.now.design.now) }
    requires rows { HasRows (design_view rows.now.design.now) rows.now.targets.now rows.now.written.now rows.now.wakes.now }
    requires known { (d : Design) × (k : Kept) × Knows d k store.old }
    requires fits { FitsSignals (design_view store.old.design.now) values.old }
    requires room { length (row_at rows.now.targets.now process) ≤ length scratch.old.saved }
    requires none { scratch.old.pieces.items ≡ [] }
    requires parts { 128 ≤ scratch.old.pieces.room }
    ensures same { design_view store.new.design.now ≡ design_view rows.now.design.now }
    ensures known { (d : Design) × (k : Kept) × Knows d k store.new }
    ensures fits { FitsSignals (design_view store.new.design.now) values.new }
    ensures ran { ran.new.items ≡ ran.old.items ++ all_left (design_view rows.now.design.now) acted.now (process ∷ []) }
    ensures free { ran.new.room ≡ ran.old.room }
    ensures room { length scratch.new.saved ≡ length scratch.old.saved }
    ensures pieces { scratch.new.pieces ≡ scratch.old.pieces }
    ensures steps { steps.new ≡ steps.old + length (all_left (design_view rows.now.design.now) acted.now (process ∷ [])) }
    ensures step { (d : Design) (bound : ℕ → Bool) (tables : Tables) (new : Values Bit) (before : Replay) (w : Starting) → ((s : ℕ) → bound s ≡ has_code rows.now.codes.now s) → AreActed d acted.now before
        → AtFirst d bound w store.old values.old
        → AtFirst d bound (run_first_of d bound (runs_of d) tables new before is_ordered process w) store.new values.new }
{
    let processes = rows.design.processes.as_slice();
    if !is_left(&processes[process], acted, process) {
        return;
    }
    run_first(store, values, rows, process, is_ordered, scratch, steps);
    ran.push(process);
}

/// Whether a process is an Assign, or a Comb whose flag says that it has acted.
fn is_left(process: &Process, acted: &[bool], number: usize) -> bool
    ensures { result ≡ is_left_by (process_view process.now) (flag_of acted.now number) }
{
    match process {
        Process::Assign { .. } => true,
        Process::Comb { .. } => flag(acted, number),
        Process::Clocked { .. } => false,
    }
}

/// The flag of this number, false past the end.
fn flag(flags: &[bool], number: usize) -> bool
    ensures { result ≡ flag_of flags.now number }
{
    match flags.get(number) {
        Some(flag) => *flag,
        None => false,
    }
}
