ghost use Rattle.replay_model.specs.design_model.Design.{Design};
ghost use Rattle.replay_model.specs.design_model.Lawful.{IsLawfulDesign};
ghost use Rattle.replay_sets.specs.SetsOf.{SetsLaw};

/// Once a step is settled and what is early was found for each clean block, the answers are the sets of the step that the
/// replay asks for.
pub fn sets_law()
    ensures { (d : Design) → IsLawfulDesign d → SetsLaw d }
{}
