ghost use Rattle.step_check.specs.Laws.{AgreeLaw, DifferLaw};

/// Where what was made of each signal that was checked allows what the dump says, nothing contradicts the step.
pub fn agree_law()
    ensures { AgreeLaw }
{}

/// A signal of which something else was made than what the dump says contradicts the step.
pub fn differ_law()
    ensures { DifferLaw }
{}
