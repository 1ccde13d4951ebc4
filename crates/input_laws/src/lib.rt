//! Theorems of designs made of inputs alone, and of the tables of their scores; there is no code.
//!
//! Some run of such a design shows whatever a dump says of it, so no dump contradicts it ([`shown_law`]). A table of the
//! design that is sound and reasoned leaves no point undetermined: its points are toggle points, and each is marked hit
//! exactly where the dump toggles the bit from one listed time of a stretch to the next, the last one of the stretch left out
//! ([`exact_law`]).
#![tactic(auto)]

ghost use Rattle.design_model.specs.FlipFlop.{flip_flop};
ghost use Rattle.input_laws.specs.Exact.{ExactLaw};
ghost use Rattle.input_laws.specs.Inputs.{HasInputsAlone};
ghost use Rattle.input_laws.specs.Shown.{NoContradictionLaw, ShownLaw};
ghost use Rattle.input_laws.specs.Worked.{AreWorkedToggles, IsWorkedRow, IsWorkedRun};

/// Whatever a dump says of a design of inputs, some run of the design shows it, and so no time of a dump contradicts the
/// design. A dump is any list of variables and any stretches in order, so also what was read of a text up to a time.
pub fn shown_law()
    ensures shown { ShownLaw }
    ensures no_contradiction { NoContradictionLaw }
{}

/// Of a design of inputs that a dump binds, a table that lists its points, is sound and is reasoned has no undetermined
/// point, and marks a toggle point as hit exactly where the dump toggles its bit over a step of the window.
pub fn exact_law()
    ensures { ExactLaw }
{}

/// The worked case: a dump of two inputs, what toggles in it, and what a row of its table may say of a point that is hit. A
/// design with a register is not one of inputs alone.
pub fn worked_case()
    ensures run { IsWorkedRun }
    ensures toggles { AreWorkedToggles }
    ensures row { IsWorkedRow }
    ensures register { HasInputsAlone flip_flop → ⊥ }
{}
