//! What the words of a command line can be: at most one command, whose values have their forms, or else one first
//! fault.
ghost use Rattle.std.specs.Prelude.{◌≡◌, ℕ, List};
ghost use Rattle.command_line.specs.declared.usage_fault.UsageFault.{UsageFault};
ghost use Rattle.command_line.specs.Command.{AreWordsOf, CommandValues};
ghost use Rattle.command_line.specs.CommandWords.{HaveForms, IsScore, ScoreValues};
ghost use Rattle.command_line.specs.UsageFault.{HasUsageFault, usage_text};

/// The words of a command have no fault.
pub fn commands_have_no_fault()
    ensures { (words : List (List ℕ)) (values : CommandValues) (fault : UsageFault) → AreWordsOf values words → HasUsageFault words fault → ⊥ }
{}

/// Words are one command at most.
pub fn words_are_one_command()
    ensures { (words : List (List ℕ)) (a b : CommandValues) → AreWordsOf a words → AreWordsOf b words → a ≡ b }
{}

/// Words have one fault at most, and it has one text.
pub fn words_have_one_fault()
    ensures { (words : List (List ℕ)) (a b : UsageFault) → HasUsageFault words a → HasUsageFault words b → usage_text a ≡ usage_text b }
{}

/// Each value of a `score` command has its form, and there is a source.
pub fn values_have_their_forms()
    ensures { (words : List (List ℕ)) (values : ScoreValues) → IsScore words values → HaveForms values }
{}
