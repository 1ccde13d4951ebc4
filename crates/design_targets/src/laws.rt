ghost use Rattle.design_model.specs.Design.{Design};
ghost use Rattle.design_model.specs.Lawful.{IsLawfulDesign};
ghost use Rattle.design_targets.specs.Laws.{BlockingLaw, NonblockingLaw, WithinLaw};

/// The signals and memories that the text of a process of a lawful design may write are those of which its machine may
/// write a bit, and they are of the design.
pub fn targets_law()
    ensures blocking { (d : Design) → IsLawfulDesign d → BlockingLaw d }
    ensures nonblocking { (d : Design) → IsLawfulDesign d → NonblockingLaw d }
    ensures within { (d : Design) → IsLawfulDesign d → WithinLaw d }
{}
