//! Theorems of the definitions of `design_model`: of a design, of its points and of what a dump decides. There is no
//! code: each function's contract states theorems.
//!
//! Where nothing is in doubt for a point, no two runs that show the dump differ in whether it is hit
//! ([`decided_law`]); what is clear contradicts itself in no dump ([`consistent_law`]); and when an assignment that
//! reads a net which it drives has a wake bit ([`own_wake_law`]).
#![tactic(auto)]

ghost use Rattle.design_model.specs.event_machine.Habit.{Habit};
ghost use Rattle.design_model.specs.Design.{Design as DesignTree};
ghost use Rattle.design_model.specs.Lawful.{IsLawfulDesign};
ghost use Rattle.model_laws.specs.Decided.{DecidedLaw};
ghost use Rattle.model_laws.specs.Consistent.{ConsistentLaw, HasOwnUnclear, OneValueLaw};
ghost use Rattle.model_laws.specs.Own.{IsPickingExample, OwnWakesLaw, WakeOrIgnoredLaw};

/// At a window time at which nothing is in doubt for a point, two runs that show the dump do not differ in whether it
/// is hit: of a signal, of Clocked blocks, and of Assigns and Combs, also of such as a memory wakes.
pub fn decided_law()
    ensures { (d : DesignTree) (h : Habit) → IsLawfulDesign d → DecidedLaw d h }
{}

/// What is clear contradicts itself in no dump, be it one that a run shows or not: it cannot be that no state agrees
/// with it, so it has one value, and a signal that the dump lacks and an Assign both drives and mentions is never
/// clear.
pub fn consistent_law()
    ensures consistent { (d : DesignTree) (h : Habit) → IsLawfulDesign d → ConsistentLaw d h }
    ensures one_value { (d : DesignTree) (h : Habit) → IsLawfulDesign d → OneValueLaw d h }
    ensures own_unclear { (d : DesignTree) → IsLawfulDesign d → HasOwnUnclear d }
{}

/// Of each signal that an Assign both drives and mentions it has a wake bit, where it selects none of them by a
/// constant index with an x or z. In any case it has a wake bit of a signal that it mentions, or what it visits does
/// not depend on the signal. The second can be: a lawful design in which an Assign drives each bit of a signal and
/// selects it by an index that is x, which selects no bit.
pub fn own_wake_law()
    ensures known { (d : DesignTree) → IsLawfulDesign d → OwnWakesLaw d }
    ensures wakes { (d : DesignTree) → IsLawfulDesign d → WakeOrIgnoredLaw d }
    ensures without { IsPickingExample }
{}
