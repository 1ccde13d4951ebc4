//! That the list of those that are woken leaves out none that runs, and an example; there is no code.

ghost use Rattle.step_clocked.specs.Example.{IsOrderExample};
ghost use Rattle.step_clocked.specs.Laws.{ListedLaw};

/// The woken ones of the Clocked processes of a lawful design are all that can wake.
pub fn listed_law()
    ensures { ListedLaw }
{}

/// Clean processes run in order of the rounds in which their triggers became single.
pub fn order_example()
    ensures { IsOrderExample }
{}
