//! What the dump of a selfrun says of its design, and a run of the design that shows it; there is no code.
//!
//! The generator computes what the design contains after each step (`specs/Moments.antt`). The dump says these values at the times of
//! the step (`specs/Says.antt`), and some run of the design shows it ([`shown_law`]): at the first time of a step the environment moves
//! the clock down and the inputs to their values, and at the second one it moves the clock up, and the block runs.
#![tactic(auto)]

ghost use Rattle.selfrun_runs.specs.Shown.{SelfrunShownLaw};
ghost use Rattle.selfrun_runs.specs.Worked.{IsWorkedCase};

/// Some run of the design shows what the dump of a selfrun says.
pub fn shown_law()
    ensures { SelfrunShownLaw }
{}

/// The worked case: the registers and words of the run from the number 1.
pub fn worked_case()
    ensures { IsWorkedCase }
{}
