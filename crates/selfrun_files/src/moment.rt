ghost use Rattle.std.specs.Prelude.{◌≡◌, ◌+◌, ◌<◌, ◌^◌};
ghost use Rattle.selfrun_files.specs.Samples.{after, inputs_at, start};

use crate::inputs::{Inputs, inputs_of, next_number};
use crate::registers::Registers;

/// The moment before a step.
#[derive(Clone, Copy)]
pub(crate) struct Moment {
    /// The number from which that of the step follows.
    pub(crate) number: u32,
    /// How many steps there were.
    pub(crate) step: u32,
    /// What the design contains.
    pub(crate) registers: Registers,
}

impl Moment {
    /// Before the first step.
    pub(crate) fn start(number: u32) -> Self
        ensures { result ≡ start number }
    {
        Moment {
            number,
            step: 0,
            registers: Registers::new(),
        }
    }

    /// The inputs in the step.
    pub(crate) fn inputs(&self) -> Inputs
        ensures inputs { result ≡ inputs_at self.now }
        ensures word { result.a < 16 }
    {
        inputs_of(self.step, next_number(self.number))
    }

    /// After the step.
    pub(crate) fn after(&self) -> Self
        requires { self.now.step + 1 < 2 ^ 32 }
        ensures { result ≡ after self.now }
    {
        Moment {
            number: next_number(self.number),
            step: self.step + 1,
            registers: self.registers.clocked(self.inputs()),
        }
    }
}
