ghost use Rattle.std.specs.Prelude.{◌≡◌, ◌+◌, IfOk, length};
ghost use Rattle.design_model.specs.Lawful.{IsLawfulDesign};
ghost use Rattle.design_model.specs.View.{design_view};
ghost use Rattle.early_sets.specs.Sizes.{AreWriters};
ghost use Rattle.early_sets.specs.WakeState.{state_of};
ghost use Rattle.step_wakes.specs.Step.{IsOfDesign};
ghost use Rattle.replay_sets.specs.wake_laws.Laws.{HasNoWriters};

use crate::inputs::{given_inputs, missing_inputs};
use crate::tables::tables_of;
use cov_host::NoMemory;
use design_model::Design;
use early_sets::Wakes;
use std::alloc::Global;

/// The sets of the steps of a design, before the first one, each by its first round: the inputs alone are single. `bound`
/// says for each signal whether the dump gives it. An input that the dump does not give may change in any step. It takes
/// time for the text of the design; no call after it takes memory.
pub fn wakes_of(alloc: Global, design: &Design, bound: &[bool]) -> Result<Wakes, NoMemory>
    requires { IsLawfulDesign (design_view design.now) }
    ensures design { IfOk result (λ wakes. IsOfDesign (design_view design.now) bound.now (state_of wakes)) }
    ensures writers { IfOk result (λ wakes. HasNoWriters (state_of wakes)) }
{
    let things = design.signals.len() + design.memories.len();
    let writers = vec![in alloc; None; things]?;
    wakes_in_rounds(alloc, design, bound, writers)
}

/// The same, each step by its last round: a signal for which `writers` gives the block that writes it, at most once in each
/// evaluation, becomes single where this block is evaluated at most once.
pub fn wakes_in_rounds(
    alloc: Global,
    design: &Design,
    bound: &[bool],
    writers: Vec<Option<u32>>,
) -> Result<Wakes, NoMemory>
    requires lawful { IsLawfulDesign (design_view design.now) }
    requires writers { AreWriters (length design.now.signals + length design.now.memories) (length design.now.processes) writers.items }
    ensures design { IfOk result (λ wakes. IsOfDesign (design_view design.now) bound.now (state_of wakes)) }
    ensures writers { IfOk result (λ wakes. (state_of wakes).writers ≡ writers.items) }
{
    let tables = tables_of(alloc, design)?;
    let told = given_inputs(alloc, design, bound, tables.things)?;
    let untold = missing_inputs(alloc, design, bound)?;
    Wakes::new(alloc, tables, told, untold, writers)
}
