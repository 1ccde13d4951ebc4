//! Worked examples of the definitions of the state machines in a step: how sure a state or an arc is, which verdicts are changed, the
//! machines of a signal, and what was reported.

ghost use Rattle.cover_points.specs.declared.listing.Points.{Points};
ghost use Rattle.worked_examples.specs.Machine.Followed.{IsFollowedExample, IsStepExample, IsToldExample};
ghost use Rattle.worked_examples.specs.Machine.Marked.{HasOneMachine, IsChanceExample, IsIndexExample, IsMarksExample, IsTestExample};

/// How sure states and arcs are where a bit is not known, and the verdicts that follow.
pub fn chance_example()
    ensures { IsChanceExample }
{}

/// Which states and arcs a machine has, by the numbers of its states.
pub fn test_example()
    ensures { IsTestExample }
{}

/// A signal that goes from one state to the other: its verdicts, and such as are refused.
pub fn marks_example()
    ensures { (ps : Points) → HasOneMachine ps → IsMarksExample ps }
{}

/// The machine of a signal, and the state of a value.
pub fn index_example()
    ensures { IsIndexExample }
{}

/// A state that was reported: as hit where it surely is, as hit or left open where it may be.
pub fn told_example()
    ensures { IsToldExample }
{}

/// A step in which one of two signals moves: of the machine of the other one its states alone are marked, where no state was reported.
pub fn followed_example()
    ensures { (ps : Points) → HasOneMachine ps → IsFollowedExample ps }
{}

/// The same step by the lists of the code; another time, and a list that names too few or too many, are refused.
pub fn step_example()
    ensures { (ps : Points) → HasOneMachine ps → IsStepExample ps }
{}
