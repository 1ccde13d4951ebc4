ghost use Rattle.design_model.specs.Design.{Design};
ghost use Rattle.design_model.specs.Lawful.{IsLawfulDesign};
ghost use Rattle.wake_laws.specs.Laws.{EarlyLaw, MovesLaw, RoundsLaw, WakesLaw};

/// The sets of a step are those of the definitions of the design, where its tables are those of the design and each
/// input and each signal that may become single was noted if it changes: what is single and since which round, what may
/// move, by which event signal a process can wake, which process is clean, and what is early for it.
pub fn wakes_law()
    ensures rounds { (d : Design) → IsLawfulDesign d → RoundsLaw d }
    ensures moves { (d : Design) → IsLawfulDesign d → MovesLaw d }
    ensures wakes { (d : Design) → IsLawfulDesign d → WakesLaw d }
    ensures early { (d : Design) → IsLawfulDesign d → EarlyLaw d }
{}
