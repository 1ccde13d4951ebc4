ghost use Rattle.std.specs.Prelude.{◌≡◌, ◌<◌, ℕ, IfNone, IfSome, flat_map, length};
ghost use Rattle.std.specs.List.{All, Contains};
ghost use Rattle.event_machine.specs.Cell.{Values};
ghost use Rattle.four_state.specs.declared.bit.Bit.{Bit};
ghost use Rattle.design_model.specs.Design.{Design};
ghost use Rattle.dump_check.specs.Checks.{AgreesAt, IsFirstDifference, last_of_each};
ghost use Rattle.index_sets.specs.Rows.{row_at};
ghost use Rattle.step_changes.specs.step_values.Dumped.{AreDumped};
ghost use Rattle.step_changes.specs.step_values.Vectors.{FitsSignals};

use code_values::CodeValues;
use dump_check::{CheckOrder, Difference};
use index_sets::Rows;
use step_changes::StepValues;

/// The first signal of which the processes that ran made something else than what the dump says, in a bit that is sure, in the
/// order in which the last process of each has run. `checks` has the signals that each process has checked, `codes` the code of
/// each signal, and `order` is scratch room. It takes no memory, and time for the targets of the processes that ran.
pub fn check(
    runs: &[usize],
    checks: &Rows<u32>,
    codes: &[Option<u32>],
    dump: &CodeValues,
    values: &StepValues,
    order: &mut CheckOrder,
) -> Option<Difference>
    requires rows { All (λ p. p < length checks.now) runs.now }
    requires below { (p s : ℕ) → Contains (row_at checks.now p) s → s < order.old.size }
    requires fits { (d : Design) × (new : Values Bit) × FitsSignals d values.now × AreDumped d codes.now dump.now.last new × ((p s : ℕ) → Contains (row_at checks.now p) s → s < length d.signals) }
    ensures size { order.new.size ≡ order.old.size }
    ensures some { IfSome result (IsFirstDifference codes.now dump.now.last values.now.made (last_of_each (flat_map (row_at checks.now) runs.now))) }
    ensures none { IfNone result (All (AgreesAt codes.now dump.now.last values.now.made) (last_of_each (flat_map (row_at checks.now) runs.now))) }
{
    order.collect(runs, checks);
    order.first_difference(codes, dump, values.all_made())
}
