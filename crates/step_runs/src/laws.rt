//! That rows and changes are those that the runs ask, and examples; there is no code.

ghost use Rattle.step_runs.specs.Example.{IsOrderExample, IsWrittenExample};
ghost use Rattle.step_runs.specs.Laws.{FirstWordsLaw, KeptWordsLaw, RowsLaw, StepsLaw, WordsLaw};

use process_targets::settled_law;

/// What is made of a lawful design are the rows that its processes run with.
pub fn rows_law()
    ensures { RowsLaw }
{}

/// Where a step is due, the rows, the codes and the signals that have changed are those of the step for each Assign and Comb.
pub fn steps_law()
    ensures { StepsLaw }
{}

/// How words have changed once the Clocked have run is how they have as the Assigns and Combs start, and these leave the words: they
/// make none anew, and the dump has no words. So nothing is known of a word after the first step.
pub fn words_law()
    ensures start { WordsLaw }
    ensures kept { KeptWordsLaw }
    ensures first { FirstWordsLaw }
{
    settled_law();
}

/// Which processes are ordered, by their places.
pub fn order_example()
    ensures { IsOrderExample }
{}

/// What the register of an example assigns.
pub fn written_example()
    ensures { IsWrittenExample }
{}
