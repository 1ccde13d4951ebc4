ghost use Rattle.std.specs.Prelude.{◌≡◌};
ghost use Rattle.std.specs.List.{flat_map};
ghost use Rattle.command_line.specs.UsageFault.{usage_text};

/// Why words are no command: their first fault from the left, with the word that it is about.
#[derive(Clone, Copy)]
pub enum UsageFault<'a> {
    /// There are no words.
    NoCommand,
    /// The first word names no command.
    UnknownCommand(&'a str),
    /// The word is no option.
    UnknownWord(&'a str),
    /// The option has a value already, whatever follows it.
    GivenTwice(&'a str),
    /// The option is the last word.
    NeedsValue(&'a str),
    /// The value has not its option's form.
    BadValue(&'a str),
    /// The first option without a value, where the words end.
    Missing(&'a str),
}

impl<'a> UsageFault<'a> {
    /// The text of the fault, in pieces one after the other, so that it can be written without memory.
    pub fn pieces(&self) -> [&'a str; 3]
        ensures { flat_map (λ piece. piece.now) result ≡ usage_text self.now }
    {
        match self {
            UsageFault::NoCommand => ["no command", "", ""],
            UsageFault::UnknownCommand(word) => ["unknown command ", word, ""],
            UsageFault::UnknownWord(word) => ["unknown word ", word, ""],
            UsageFault::GivenTwice(word) => ["", word, " given twice"],
            UsageFault::NeedsValue(word) => ["", word, " needs a value"],
            UsageFault::BadValue(word) => ["bad value ", word, ""],
            UsageFault::Missing(word) => ["missing ", word, ""],
        }
    }
}
