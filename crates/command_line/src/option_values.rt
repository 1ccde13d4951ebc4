ghost use Rattle.std.specs.Prelude.{◌≡◌, [], ◌∷◌, IfSome, IfNone};
ghost use Rattle.command_line.specs.OptionValues.{values_among, values_left};
ghost use Rattle.command_line.specs.WordsLeft.{left_words};

use crate::ScoreOption;
use crate::words_left::WordsLeft;

/// The values of an option that are left among options with their values. It borrows the words.
#[derive(Clone, Copy)]
pub(crate) struct OptionValues<'a> {
    option: ScoreOption,
    words: WordsLeft<'a>,
}

impl<'a> OptionValues<'a> {
    /// The values of the option among the words that are left.
    pub(crate) fn new(option: ScoreOption, words: WordsLeft<'a>) -> Self
        ensures { values_left result ≡ values_among option (left_words words.entry) }
    {
        OptionValues { option, words }
    }

    /// The next value.
    pub(crate) fn next_value(&mut self) -> Option<&'a str>
        ensures value { IfSome result (λ value. values_left self.old ≡ value.now ∷ values_left self.new) }
        ensures end { IfNone result ((values_left self.old ≡ []) × (values_left self.new ≡ [])) }
    {
        while let Some(word) = self.words.next_word() {
            if word == ScoreOption::Late.text() {
                continue;
            }
            let value = self.words.next_word()?;
            if word == self.option.text() {
                return Some(value);
            }
        }
        None
    }
}
