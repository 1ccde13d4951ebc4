ghost use Rattle.std.specs.Prelude.{◌≡◌, ◌≢◌, IfSome, IfNone};
ghost use Rattle.command_line.specs.DatabaseOption.{accepts, option_text, repeats, takes_value};

use crate::is_file_name;
use crate::report_level::ReportLevel;
use crate::report_metrics::is_letters;

/// An option of the commands that read databases.
#[derive(Clone, Copy, PartialEq, Eq)]
pub enum DatabaseOption {
    /// How much a report shows.
    Level,
    /// The metrics that a report shows.
    Metrics,
    /// A report shows each instance by itself. It takes no value.
    ByInstance,
    /// A report shows the points that were hit. It takes no value.
    Covered,
    /// The file that is written.
    Output,
    /// The address of a point. It may be repeated.
    Point,
}

impl DatabaseOption {
    /// The option that a word is.
    pub fn named(word: &str) -> Option<Self>
        ensures named { IfSome result (λ option. word.now ≡ option_text option) }
        ensures unknown { IfNone result ((option : DatabaseOption) → word.now ≢ option_text option) }
    {
        match word {
            "-d" => Some(DatabaseOption::Level),
            "-m" => Some(DatabaseOption::Metrics),
            "-i" => Some(DatabaseOption::ByInstance),
            "-c" => Some(DatabaseOption::Covered),
            "-o" => Some(DatabaseOption::Output),
            "-point" => Some(DatabaseOption::Point),
            _ => None,
        }
    }

    /// Whether the option may be repeated.
    pub fn repeats(self) -> bool
        ensures { result ≡ repeats self }
    {
        match self {
            DatabaseOption::Point => true,
            DatabaseOption::Level | DatabaseOption::Metrics | DatabaseOption::ByInstance => false,
            DatabaseOption::Covered | DatabaseOption::Output => false,
        }
    }

    /// Whether the next word is the option's value, whatever it begins with.
    pub fn takes_value(self) -> bool
        ensures { result ≡ takes_value self }
    {
        match self {
            DatabaseOption::Level | DatabaseOption::Metrics => true,
            DatabaseOption::Output | DatabaseOption::Point => true,
            DatabaseOption::ByInstance | DatabaseOption::Covered => false,
        }
    }

    /// Whether the value has the option's form. An option that takes no value has the empty one.
    pub fn accepts(self, value: &str) -> bool
        ensures { result ≡ accepts self value.now }
    {
        match self {
            DatabaseOption::Level => ReportLevel::named(value).is_some(),
            DatabaseOption::Metrics => is_letters(value),
            DatabaseOption::ByInstance | DatabaseOption::Covered => value.is_empty(),
            DatabaseOption::Output | DatabaseOption::Point => is_file_name(value),
        }
    }
}
