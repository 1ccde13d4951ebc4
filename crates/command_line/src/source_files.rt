ghost use Rattle.std.specs.Prelude.{◌≡◌, [], ◌∷◌, IfSome, IfNone};
ghost use Rattle.command_line.specs.declared.score_option.ScoreOption.TheVariants.{Source};
ghost use Rattle.command_line.specs.OptionValues.{sources_of, values_among};
ghost use Rattle.command_line.specs.WordsLeft.{left_words};

use crate::ScoreOption;
use crate::option_values::OptionValues;
use crate::words_left::WordsLeft;

/// The files of the design that are left among the words of a command. It borrows the words.
#[derive(Clone, Copy)]
pub struct SourceFiles<'a> {
    values: OptionValues<'a>,
}

impl<'a> SourceFiles<'a> {
    /// The files among the words that are left.
    pub(crate) fn new(words: WordsLeft<'a>) -> Self
        ensures { sources_of result ≡ values_among Source (left_words words.entry) }
    {
        SourceFiles {
            values: OptionValues::new(ScoreOption::Source, words),
        }
    }

    /// The next file.
    pub fn next_file(&mut self) -> Option<&'a str>
        ensures file { IfSome result (λ file. sources_of self.old ≡ file.now ∷ sources_of self.new) }
        ensures end { IfNone result ((sources_of self.old ≡ []) × (sources_of self.new ≡ [])) }
    {
        self.values.next_value()
    }
}
