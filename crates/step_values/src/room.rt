//! The room for what is set aside in a step.

ghost use Rattle.std.specs.Prelude.{◌≤◌, IfOk, length};
ghost use Rattle.std.specs.List.{All};
ghost use Rattle.design_model.specs.View.{design_view};
ghost use Rattle.store_knowledge.specs.value_store.Signals.{HasWidth};
ghost use Rattle.step_values.specs.Vectors.{AreWide, FitsSignals};

use crate::StepValues;
use cov_host::NoMemory;
use design_model::{Design, Signal};
use known_state::Known;
use std::alloc::Global;

impl StepValues {
    /// Room for each signal of a design. All memory that is ever needed is taken here.
    pub fn new(alloc: Global, design: &Design) -> Result<Self, NoMemory>
        requires widths { All HasWidth design.now.signals }
        requires few { length design.now.signals ≤ 65536 }
        ensures { IfOk result (λ made. FitsSignals (design_view design.now) made) }
    {
        let before = unknown_values(alloc, design.signals.as_slice())?;
        let made = unknown_values(alloc, design.signals.as_slice())?;
        Ok(StepValues { before, made })
    }
}

/// A vector for each signal of which no bit is sure.
fn unknown_values(alloc: Global, signals: &[Signal]) -> Result<Vec<Known>, NoMemory>
    requires widths { All HasWidth signals.now }
    requires few { length signals.now ≤ 65536 }
    ensures { IfOk result (λ made. AreWide signals.now made.items) }
{
    let mut values = Vec::with_capacity(alloc, signals.len())?;
    for (place, signal) in signals.iter().enumerate() {
        values.push(Known::unknown(signal.width, signal.signed, place as u32))?;
    }
    Ok(values)
}
