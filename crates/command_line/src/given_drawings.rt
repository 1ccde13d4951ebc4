ghost use Rattle.std.specs.Prelude.{◌≡◌, [], ◌∷◌, map, IfSome, IfNone};
ghost use Rattle.command_line.specs.declared.score_option.ScoreOption.TheVariants.{Arcs};
ghost use Rattle.command_line.specs.DrawingWords.{drawing_of, drawing_values};
ghost use Rattle.command_line.specs.OptionValues.{drawings_of, values_among};
ghost use Rattle.command_line.specs.WordsLeft.{left_words};

use crate::option_values::OptionValues;
use crate::words_left::WordsLeft;
use crate::{GivenDrawing, ScoreOption};

/// The state machines to be drawn that are left among the words of a command. It borrows the words.
#[derive(Clone, Copy)]
pub struct GivenDrawings<'a> {
    values: OptionValues<'a>,
}

impl<'a> GivenDrawings<'a> {
    /// The machines to be drawn among the words that are left.
    pub(crate) fn new(words: WordsLeft<'a>) -> Self
        ensures { drawings_of result ≡ map drawing_of (values_among Arcs (left_words words.entry)) }
    {
        GivenDrawings {
            values: OptionValues::new(ScoreOption::Arcs, words),
        }
    }

    /// The signals of the next machine.
    pub fn next_drawing(&mut self) -> Option<GivenDrawing<'a>>
        ensures drawing { IfSome result (λ drawing. drawings_of self.old ≡ drawing_values drawing ∷ drawings_of self.new) }
        ensures end { IfNone result ((drawings_of self.old ≡ []) × (drawings_of self.new ≡ [])) }
    {
        let value = self.values.next_value()?;
        Some(GivenDrawing::new(value))
    }
}
