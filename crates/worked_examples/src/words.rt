//! Worked examples of the definitions of the words of memories in a step: which words are followed, which are written, how they are
//! compared, and that a run leaves the words that it does not note.

ghost use Rattle.worked_examples.specs.Word.Followed.{IsRangeExample, IsUnwrittenExample, IsWrittenExample};
ghost use Rattle.worked_examples.specs.Word.Noted.{IsNotedExample};
ghost use Rattle.worked_examples.specs.Word.Compared.{IsChangeExample, IsCompareExample, IsFitExample, IsStateExample};

/// The words of a memory that is declared from its greatest index down, and of one that is not followed.
pub fn range_example()
    ensures { IsRangeExample }
{}

/// One word of two memories is written; lists that leave its memory out, or that have a word past the last one, are refused.
pub fn written_example()
    ensures { IsWrittenExample }
{}

/// Of the words that are not written the same is known, where the written one alone has changed.
pub fn unwritten_example()
    ensures { IsUnwrittenExample }
{}

/// A run that writes one word notes this one alone, and what it queues leaves the others.
pub fn noted_example()
    ensures { IsNotedExample }
{}

/// Words that surely differ, that surely agree, and of which neither is sure.
pub fn change_example()
    ensures { IsChangeExample }
{}

/// What is known of words fits a design, and is what the store keeps; words of another width or number are refused.
pub fn fit_example()
    ensures { IsFitExample }
{}

/// The state after a word was compared: of which nothing was known, or which had another value.
pub fn state_example()
    ensures { IsStateExample }
{}

/// Which memories have changed over a step in which one word has.
pub fn compare_example()
    ensures { IsCompareExample }
{}
