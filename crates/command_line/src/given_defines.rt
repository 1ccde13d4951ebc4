ghost use Rattle.std.specs.Prelude.{◌≡◌, [], ◌∷◌, map, IfSome, IfNone};
ghost use Rattle.command_line.specs.declared.score_option.ScoreOption.TheVariants.{Define};
ghost use Rattle.command_line.specs.Define.{define_of, define_values};
ghost use Rattle.command_line.specs.OptionValues.{defines_of, values_among};
ghost use Rattle.command_line.specs.WordsLeft.{left_words};

use crate::option_values::OptionValues;
use crate::words_left::WordsLeft;
use crate::{GivenDefine, ScoreOption};

/// The names with their texts that are left among the words of a command. It borrows the words.
#[derive(Clone, Copy)]
pub struct GivenDefines<'a> {
    values: OptionValues<'a>,
}

impl<'a> GivenDefines<'a> {
    /// The names with their texts among the words that are left.
    pub(crate) fn new(words: WordsLeft<'a>) -> Self
        ensures { defines_of result ≡ map define_of (values_among Define (left_words words.entry)) }
    {
        GivenDefines {
            values: OptionValues::new(ScoreOption::Define, words),
        }
    }

    /// The next name with its text.
    pub fn next_define(&mut self) -> Option<GivenDefine<'a>>
        ensures define { IfSome result (λ define. defines_of self.old ≡ define_values define ∷ defines_of self.new) }
        ensures end { IfNone result ((defines_of self.old ≡ []) × (defines_of self.new ≡ [])) }
    {
        let value = self.values.next_value()?;
        Some(GivenDefine::new(value))
    }
}
