ghost use Rattle.std.specs.Prelude.{IfOk};
ghost use Rattle.design_model.specs.Lawful.{IsLawfulDesign};
ghost use Rattle.design_model.specs.View.{design_view};
ghost use Rattle.early_sets.specs.WakeState.{state_of};
ghost use Rattle.step_wakes.specs.Step.{IsOfDesign, flag_at};
ghost use Rattle.wake_laws.specs.OfDesign.{AreWritersOf};

use cov_host::NoMemory;
use design_model::Design;
use early_sets::Wakes;
use once_writers::once_writers;
use std::alloc::Global;
use step_wakes::wakes_in_rounds;

/// The sets of the steps of a design, before the first one, each by its last round: those of `wakes_in_rounds` with the writers
/// that `once_writers` finds. `bound` says for each signal whether the dump gives it. An input that the dump does not give may
/// change in any step. It takes the time that these two take; no call after it takes memory.
pub fn wakes_by_rounds(alloc: Global, design: &Design, bound: &[bool]) -> Result<Wakes, NoMemory>
    requires { IsLawfulDesign (design_view design.now) }
    ensures design { IfOk result (λ wakes. IsOfDesign (design_view design.now) bound.now (state_of wakes)) }
    ensures writers { IfOk result (λ wakes. AreWritersOf (design_view design.now) (flag_at bound.now) (state_of wakes).tables.things (state_of wakes).writers) }
{
    let writers = once_writers(alloc, design, bound)?;
    wakes_in_rounds(alloc, design, bound, writers)
}
