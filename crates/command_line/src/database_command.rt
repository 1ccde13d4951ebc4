ghost use Rattle.std.specs.Prelude.{◌≡◌, IfNone, IfSome};
ghost use Rattle.command_line.specs.DatabaseOption.{IsOptionOf, IsNoOptionOf, has_option, has_room};

use crate::DatabaseOption;

/// A command that reads databases.
#[derive(Clone, Copy)]
pub enum DatabaseCommand {
    /// Joins databases of one design.
    Merge,
    /// Shows a database.
    Report,
    /// Writes a tracefile of lcov.
    Lcov,
    /// Prints the order in which the tests of databases are worth running.
    Rank,
    /// Takes points out of the totals of a report.
    Exclude,
    /// Takes points back into the totals of a report.
    Restore,
}

impl DatabaseCommand {
    /// The option of the command that a word is.
    pub(crate) fn option_named(self, word: &str) -> Option<DatabaseOption>
        ensures named { IfSome result (λ option. IsOptionOf self option word.now) }
        ensures unknown { IfNone result (IsNoOptionOf self word.now) }
    {
        let option = DatabaseOption::named(word)?;
        if self.has_option(option) {
            Some(option)
        } else {
            None
        }
    }

    /// Whether the command has the option.
    fn has_option(self, option: DatabaseOption) -> bool
        ensures { result ≡ has_option self option }
    {
        match self {
            DatabaseCommand::Merge => option == DatabaseOption::Output,
            DatabaseCommand::Report => option != DatabaseOption::Point,
            DatabaseCommand::Lcov => option == DatabaseOption::Output,
            DatabaseCommand::Rank => false,
            DatabaseCommand::Exclude | DatabaseCommand::Restore => {
                matches!(option, DatabaseOption::Output | DatabaseOption::Point)
            }
        }
    }

    /// Whether a database may be named, where it is the first or not.
    pub(crate) fn has_room(self, is_first: bool) -> bool
        ensures { result ≡ has_room self is_first }
    {
        match self {
            DatabaseCommand::Merge | DatabaseCommand::Rank => true,
            DatabaseCommand::Report => is_first,
            DatabaseCommand::Lcov => is_first,
            DatabaseCommand::Exclude | DatabaseCommand::Restore => is_first,
        }
    }
}
