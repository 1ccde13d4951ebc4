//! Worked examples of the definitions of a closing step: what changes, what wakes a process, what a run keeps and makes, whether a
//! block has surely acted, and what is checked.

ghost use Rattle.worked_examples.specs.Step.Rows.{IsActingExample, IsChangeExample, IsCheckExample, IsLeftExample, IsRowsExample, IsWakeExample};

/// The lowest bits of a signal before and after a step, and lists that name too few or too many of the signals that change.
pub fn change_example()
    ensures { IsChangeExample }
{}

/// A bit that the process writes itself is not among those that wake it, and each other one is.
pub fn wake_example()
    ensures { IsWakeExample }
{}

/// What is kept and what is made of the cells of a row, and of others, by a run that holds and by one that does not.
pub fn left_example()
    ensures { IsLeftExample }
{}

/// A block has surely acted where it had before, where it surely runs, or where a signal that its body mentions has changed.
pub fn acting_example()
    ensures { IsActingExample }
{}

/// Of a row a step checks the signal of which the dump has some bit, and neither less nor more.
pub fn check_example()
    ensures { IsCheckExample }
{}

/// The rows of a design without processes, and rows of a combinational block that are refused.
pub fn rows_example()
    ensures { IsRowsExample }
{}
