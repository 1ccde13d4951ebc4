ghost use Rattle.design_model.specs.Design.{Design};
ghost use Rattle.design_model.specs.Lawful.{IsLawfulDesign};
ghost use Rattle.process_targets.specs.Laws.{LeavesLaw, PartLaw, RightLaw, SettledLaw};

/// The parts of the targets of the blocking assignments of a process write what the process may write of signals, and a
/// part by a constant index is that of bits of its signal.
pub fn leaves_law()
    ensures has { (d : Design) → IsLawfulDesign d → LeavesLaw d }
    ensures right { (d : Design) → IsLawfulDesign d → RightLaw d }
{}

/// A part of a signal that lies inside of it is written at its places.
pub fn part_law()
    ensures { PartLaw }
{}

/// What an Assign or Comb assigns it assigns by blocking assignments, and it is a signal.
pub fn settled_law()
    ensures { (d : Design) → IsLawfulDesign d → SettledLaw d }
{}
