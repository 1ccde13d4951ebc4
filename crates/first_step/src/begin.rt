ghost use Rattle.std.specs.Prelude.{◌≡◌, ◌<◌, ◌≤◌, ◌+◌, ◌++◌, [], ℕ, Bool, IfNone, IfSome, false, flat_map, length, true};
ghost use Rattle.event_machine.specs.Cell.{Cell, Values};
ghost use Rattle.four_state.specs.declared.bit.Bit.{Bit};
ghost use Rattle.design_model.specs.Design.{Design};
ghost use Rattle.design_model.specs.Lawful.{IsLawfulDesign};
ghost use Rattle.design_model.specs.View.{design_view};
ghost use Rattle.body_replay.specs.Runs.{runs_of};
ghost use Rattle.body_replay.specs.Store.{Kept};
ghost use Rattle.dump_check.specs.Checks.{IsFirstDifference, last_of_each};
ghost use Rattle.index_sets.specs.Rows.{row_at};
ghost use Rattle.process_order.specs.Tables.{tables_of};
ghost use Rattle.process_order.specs.replay_model.Start.{contradicts_first, started};
ghost use Rattle.process_order.specs.replay_model.Step.{Replay};
ghost use Rattle.process_order.specs.replay_model.Tables.{AreTables};
ghost use Rattle.settling.specs.store_knowledge.Knows.{Knows};
ghost use Rattle.step_check.specs.Checks.{AreCheckRows};
ghost use Rattle.settling.specs.step_values.Dumped.{AreDumped};
ghost use Rattle.settling.specs.step_values.Loose.{has_code};
ghost use Rattle.settling.specs.step_values.Vectors.{FitsSignals};
ghost use Rattle.settling.specs.Runs.{HasRows};
ghost use Rattle.first_step.specs.Begun.{IsFirstOf, all_left};

use crate::dump::put_first;
use crate::runs::run_all_left;
use body_store::Store;
use code_values::CodeValues;
use dump_check::{CheckOrder, Difference};
use index_sets::Rows;
use process_order::ProcessTables;
use settling::{ProcessRows, Scratch, StepValues};
use std::sync::ledger::Ledger;
use step_check::check;
use step_counts::Steps;
use value_store::Queue;

/// The first step of a stretch: the dump's values are put into a store that knows nothing, and each Assign runs once, and each Comb
/// that has acted, those of `tables.order` and then those of `tables.last`. Their numbers are put into `ran` in this order, and each
/// run is one step. The result is the first signal of which they made something else than what the dump says, in the order in which
/// the last process of each has run. `acted` has a flag for each process, and is read for Combs. `checks` has the signals that each
/// process has checked, and `check_order` is scratch room. It takes no memory, and time for the signals and for the targets and
/// bodies of those that run.
pub fn begin_first<L: Ledger>(
    store: &mut Store,
    values: &mut StepValues,
    dump: &CodeValues,
    acted: &[bool],
    rows: &ProcessRows,
    tables: &ProcessTables,
    checks: &Rows<u32>,
    check_order: &mut CheckOrder,
    ran: &mut Queue<usize>,
    scratch: &mut Scratch,
    steps: &mut Steps<L>,
) -> Option<Difference>
    requires same { design_view store.old.design.now ≡ design_view rows.now.design.now }
    requires lawful { IsLawfulDesign (design_view rows.now.design.now) }
    requires rows { HasRows (design_view rows.now.design.now) rows.now.targets.now rows.now.written.now rows.now.wakes.now }
    requires tables { (bound : ℕ → Bool) × AreTables (design_view rows.now.design.now) bound (tables_of tables.now) }
    requires checks { AreCheckRows rows.now.codes.now rows.now.targets.now checks.now }
    requires size { check_order.old.size ≡ length rows.now.design.now.signals }
    requires ran { length rows.now.design.now.processes ≤ ran.old.room }
    requires known { (d : Design) × (k : Kept) × Knows d k store.old }
    requires fits { FitsSignals (design_view store.old.design.now) values.old }
    requires coded { (s : ℕ) → has_code rows.now.codes.now s ≡ true → s < length rows.now.design.now.signals }
    requires dumped { (new : Values Bit) × AreDumped (design_view rows.now.design.now) rows.now.codes.now dump.now.last new }
    requires room { (p : ℕ) → p < length rows.now.design.now.processes → length (row_at rows.now.targets.now p) ≤ length scratch.old.saved }
    requires none { scratch.old.pieces.items ≡ [] }
    requires parts { 128 ≤ scratch.old.pieces.room }
    ensures same { design_view store.new.design.now ≡ design_view rows.now.design.now }
    ensures known { (d : Design) × (k : Kept) × Knows d k store.new }
    ensures fits { FitsSignals (design_view store.new.design.now) values.new }
    ensures ran { ran.new.items ≡ all_left (design_view rows.now.design.now) acted.now (tables.now.order.items ++ tables.now.last.items) }
    ensures few { length ran.new.items ≤ length rows.now.design.now.processes }
    ensures places { ran.new.room ≡ ran.old.room }
    ensures size { check_order.new.size ≡ check_order.old.size }
    ensures room { length scratch.new.saved ≡ length scratch.old.saved }
    ensures pieces { scratch.new.pieces ≡ scratch.old.pieces }
    ensures steps { steps.new ≡ steps.old + length ran.new.items }
    ensures started { (d : Design) (bound : ℕ → Bool) (new : Values Bit) (before : Replay) → IsFirstOf d bound new before rows.now.codes.now dump.now.last acted.now store.old
        → Knows d (started d bound (runs_of d) (tables_of tables.now) new before).kept store.new }
    ensures none { IfNone result ((d : Design) (bound : ℕ → Bool) (new : Values Bit) (before : Replay) → IsFirstOf d bound new before rows.now.codes.now dump.now.last acted.now store.old
        → (c : Cell) → contradicts_first d bound (runs_of d) (tables_of tables.now) new before c ≡ false) }
    ensures some { IfSome result (λ found. (d : Design) (bound : ℕ → Bool) (new : Values Bit) (before : Replay) → IsFirstOf d bound new before rows.now.codes.now dump.now.last acted.now store.old
        → (c : Cell) × (c.thing ≡ found.signal) × (contradicts_first d bound (runs_of d) (tables_of tables.now) new before c ≡ true)) }
    ensures first { IfSome result (IsFirstDifference rows.now.codes.now dump.now.last values.new.made (last_of_each (flat_map (row_at checks.now) ran.new.items))) }
{
    put_first(store, values, rows, dump);
    ran.clear();
    let order = tables.order.as_slice();
    run_all_left(store, values, rows, order, true, acted, ran, scratch, steps);
    let last = tables.last.as_slice();
    run_all_left(store, values, rows, last, false, acted, ran, scratch, steps);
    check(
        ran.as_slice(),
        checks,
        rows.codes,
        dump,
        values,
        check_order,
    )
}
