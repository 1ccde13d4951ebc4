ghost use Rattle.std.specs.Prelude.{◌≡◌, [], ◌∷◌, map, IfSome, IfNone};
ghost use Rattle.command_line.specs.declared.score_option.ScoreOption.TheVariants.{States};
ghost use Rattle.command_line.specs.MachineWords.{machine_of, machine_values};
ghost use Rattle.command_line.specs.OptionValues.{machines_of, values_among};
ghost use Rattle.command_line.specs.WordsLeft.{left_words};

use crate::option_values::OptionValues;
use crate::words_left::WordsLeft;
use crate::{GivenMachine, ScoreOption};

/// The state machines that are left among the words of a command. It borrows the words.
#[derive(Clone, Copy)]
pub struct GivenMachines<'a> {
    values: OptionValues<'a>,
}

impl<'a> GivenMachines<'a> {
    /// The machines among the words that are left.
    pub(crate) fn new(words: WordsLeft<'a>) -> Self
        ensures { machines_of result ≡ map machine_of (values_among States (left_words words.entry)) }
    {
        GivenMachines {
            values: OptionValues::new(ScoreOption::States, words),
        }
    }

    /// The next machine.
    pub fn next_machine(&mut self) -> Option<GivenMachine<'a>>
        ensures machine { IfSome result (λ machine. machines_of self.old ≡ machine_values machine ∷ machines_of self.new) }
        ensures end { IfNone result ((machines_of self.old ≡ []) × (machines_of self.new ≡ [])) }
    {
        let value = self.values.next_value()?;
        Some(GivenMachine::new(value))
    }
}
