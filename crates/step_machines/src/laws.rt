ghost use Rattle.step_machines.specs.Marked.{ClosedLaw};

/// Once the toggles and the machines are marked, the parts of the code are those of the replay after the step, and each state was reported.
pub fn closed_law()
    ensures { ClosedLaw }
{}
