ghost use Rattle.std.specs.Prelude.{◌≡◌, ◌≢◌, IfSome, IfNone};
ghost use Rattle.command_line.specs.ScoreOption.{option_text, accepts, repeats, takes_value};

use crate::given_drawing::is_drawing;
use crate::given_machine::is_machine;
use crate::{GivenDefine, is_file_name, is_instance_path, is_module_name};

/// An option of the command `score`. Its value, if it takes one, is the next word, whatever that begins with.
#[derive(Clone, Copy)]
pub enum ScoreOption {
    /// The name of the top module.
    Top,
    /// The path of the top module's instance in the dump.
    Instance,
    /// A file of the design. It may be repeated.
    Source,
    /// A name that is defined, with its text. It may be repeated.
    Define,
    /// The folder in which included files lie.
    Folder,
    /// The file of the value change dump (IEEE 1364-2001 clause 18).
    Dump,
    /// The file that the coverage is written to.
    Output,
    /// A variable of a module with the parameters that are its states. It may be repeated.
    States,
    /// Two signals of a module from whose case statements a state machine is drawn. It may be repeated.
    Arcs,
    /// The inputs move late. It takes no value.
    Late,
}

impl ScoreOption {
    /// The option that a word is.
    pub fn named(word: &str) -> Option<Self>
        ensures named { IfSome result (λ option. word.now ≡ option_text option) }
        ensures unknown { IfNone result ((option : ScoreOption) → word.now ≢ option_text option) }
    {
        match word {
            "-t" => Some(ScoreOption::Top),
            "-i" => Some(ScoreOption::Instance),
            "-v" => Some(ScoreOption::Source),
            "-D" => Some(ScoreOption::Define),
            "-I" => Some(ScoreOption::Folder),
            "-vcd" => Some(ScoreOption::Dump),
            "-o" => Some(ScoreOption::Output),
            "-states" => Some(ScoreOption::States),
            "-F" => Some(ScoreOption::Arcs),
            "-late" => Some(ScoreOption::Late),
            _ => None,
        }
    }

    /// The option as it is written.
    pub fn text(self) -> &'static str
        ensures { result.now ≡ option_text self }
    {
        match self {
            ScoreOption::Top => "-t",
            ScoreOption::Instance => "-i",
            ScoreOption::Source => "-v",
            ScoreOption::Define => "-D",
            ScoreOption::Folder => "-I",
            ScoreOption::Dump => "-vcd",
            ScoreOption::Output => "-o",
            ScoreOption::States => "-states",
            ScoreOption::Arcs => "-F",
            ScoreOption::Late => "-late",
        }
    }

    /// Whether the option may be repeated.
    pub fn repeats(self) -> bool
        ensures { result ≡ repeats self }
    {
        matches!(
            self,
            ScoreOption::Source | ScoreOption::Define | ScoreOption::States | ScoreOption::Arcs
        )
    }

    /// Whether the next word is the option's value.
    pub fn takes_value(self) -> bool
        ensures { result ≡ takes_value self }
    {
        self != ScoreOption::Late
    }

    /// Whether the value has the option's form. An option that takes no value has the empty one.
    pub fn accepts(self, value: &str) -> bool
        ensures { result ≡ accepts self value.now }
    {
        match self {
            ScoreOption::Top => is_module_name(value),
            ScoreOption::Instance => is_instance_path(value),
            ScoreOption::Define => is_module_name(GivenDefine::new(value).name),
            ScoreOption::Source | ScoreOption::Folder | ScoreOption::Dump | ScoreOption::Output => {
                is_file_name(value)
            }
            ScoreOption::States => is_machine(value),
            ScoreOption::Arcs => is_drawing(value),
            ScoreOption::Late => value.is_empty(),
        }
    }
}
