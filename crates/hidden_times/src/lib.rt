//! What holds at the times of the window that a dump does not list, where it may lack inputs: an input that it lacks may move at each
//! of them. There is no code: each function's contract states theorems.
//!
//! A time that the dump does not list is hidden. At hidden times between two listed ones the dump's values stay, so no block is clean
//! and no point is reached ([`quiet_law`]); the same may move and can wake ([`same_sets_law`]); the same is clear, and no more than
//! before ([`same_clear_law`]); the settled values change over several of them as over one step ([`jump_law`]); and a point that is in doubt
//! at one of them is so at the later ones ([`same_doubt_law`]). So the replay takes them all as one time.
#![tactic(auto)]

ghost use Rattle.event_machine.specs.Habit.{Habit};
ghost use Rattle.design_model.specs.Design.{Design as DesignTree};
ghost use Rattle.design_model.specs.Lawful.{IsLawfulDesign};
ghost use Rattle.hidden_times.specs.Laws.{AnyDumpLaw, JumpLaw, ListedLaw, NoCleanLaw, NoReachLaw, SameClearLaw, SameDoubtLaw, SameRoundLaw, SameSetsLaw, SameValuesLaw, ShrinkLaw};

/// Whether a time is listed is a test; and a dump of a design is one that may lack inputs and has them all.
pub fn listed_law()
    ensures listed { ListedLaw }
    ensures dumps { (d : DesignTree) → AnyDumpLaw d }
{}

/// At hidden times between two listed ones the dump's values stay, no block is clean, and no point is reached.
pub fn quiet_law()
    ensures values { (d : DesignTree) → SameValuesLaw d }
    ensures clean { (d : DesignTree) → IsLawfulDesign d → NoCleanLaw d }
    ensures reach { (d : DesignTree) (h : Habit) → IsLawfulDesign d → NoReachLaw d h }
{}

/// At them the same may move and can wake, where each step is judged by its last round.
pub fn same_sets_law()
    ensures rounds { (d : DesignTree) → SameRoundLaw d }
    ensures sets { (d : DesignTree) → SameSetsLaw d }
{}

/// What is clear at a hidden time was clear the moment before, and is clear at the hidden times after it.
pub fn same_clear_law()
    ensures shrink { (d : DesignTree) (h : Habit) → IsLawfulDesign d → ShrinkLaw d h }
    ensures same { (d : DesignTree) (h : Habit) → IsLawfulDesign d → SameClearLaw d h }
{}

/// Over several hidden times the settled values of a run that shows the dump change as over one step.
pub fn jump_law()
    ensures { (d : DesignTree) (h : Habit) → IsLawfulDesign d → JumpLaw d h }
{}

/// What is in doubt at a hidden time leaves something in doubt at each hidden time after it.
pub fn same_doubt_law()
    ensures { (d : DesignTree) (h : Habit) → IsLawfulDesign d → SameDoubtLaw d h }
{}
