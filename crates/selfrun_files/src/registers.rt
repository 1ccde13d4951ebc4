ghost use Rattle.std.specs.Prelude.{◌≡◌, ◌<◌};
ghost use Rattle.selfrun_files.specs.Registers.{clocked, no_values};

use crate::inputs::Inputs;

/// What the registers and the words of the design contain.
#[derive(Clone, Copy)]
pub(crate) struct Registers {
    pub(crate) p: u8,
    pub(crate) q: u8,
    pub(crate) words: [u8; 16],
}

impl Registers {
    /// All are 0.
    pub(crate) fn new() -> Self
        ensures { result ≡ no_values }
    {
        Registers {
            p: 0,
            q: 0,
            words: [0; 16],
        }
    }

    /// After a rising edge of the clock, at these inputs.
    pub(crate) fn clocked(&self, inputs: Inputs) -> Self
        requires { inputs.a < 16 }
        ensures { result ≡ clocked inputs self.now }
    {
        let mut after = *self;
        after.p = inputs.d;
        if inputs.we {
            after.words[inputs.a as usize] = self.p;
        } else {
            after.q = self.words[inputs.a as usize];
        }
        after
    }
}
