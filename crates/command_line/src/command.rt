ghost use Rattle.std.specs.Prelude.{◌≡◌, ◌∷◌, ◌++◌, [], false, codes, IfErr, IfNone, IfOk, IfSome, IsTrue};
ghost use Rattle.command_line.specs.Command.{IsCommand};
ghost use Rattle.command_line.specs.CommandWords.{IsScore, score_values, value_words};
ghost use Rattle.command_line.specs.ScoreOption.{takes_value};
ghost use Rattle.command_line.specs.UsageFault.{HasScoreFault, HasUsageFault};
ghost use Rattle.command_line.specs.WordsLeft.{left_words};

use crate::database_words::{
    read_exclude, read_lcov, read_merge, read_rank, read_report, read_restore,
};
use crate::given_values::GivenValues;
use crate::read_selfrun::read_selfrun;
use crate::words_left::WordsLeft;
use crate::{
    LcovWords, MergeWords, PointWords, RankWords, ReportWords, ScoreOption, ScoreWords,
    SelfrunWords, UsageFault,
};
use cov_host::Words;

/// A command with its values.
#[derive(Clone, Copy)]
pub enum Command<'a> {
    /// Scores the coverage of a design from a value change dump.
    Score(ScoreWords<'a>),
    /// Joins databases of one design.
    Merge(MergeWords<'a>),
    /// Shows a database.
    Report(ReportWords<'a>),
    /// Writes a tracefile of lcov.
    Lcov(LcovWords<'a>),
    /// Prints the order in which the tests of databases are worth running.
    Rank(RankWords<'a>),
    /// Takes points out of the totals of a report.
    Exclude(PointWords<'a>),
    /// Takes points back into the totals of a report.
    Restore(PointWords<'a>),
    /// Scores a design and a dump that the program makes itself, and prints what came out.
    Selfrun(SelfrunWords),
}

/// Reads the words that follow the name of the program. It takes no memory. The fault is the first one from
/// the left; at one option `GivenTwice` goes before `NeedsValue`, and that before `BadValue`.
pub fn read_command<'a>(words: &'a Words) -> Result<Command<'a>, UsageFault<'a>>
    ensures command { IfOk result (λ command. IsCommand words.now command) }
    ensures fault { IfErr result (λ fault. HasUsageFault words.now fault) }
{
    let mut left = WordsLeft::new(words);
    match left.next_word() {
        None => Err(UsageFault::NoCommand),
        Some("score") => read_score(&mut left).map(Command::Score),
        Some("merge") => read_merge(&mut left).map(Command::Merge),
        Some("report") => read_report(&mut left).map(Command::Report),
        Some("lcov") => read_lcov(&mut left).map(Command::Lcov),
        Some("rank") => read_rank(&mut left).map(Command::Rank),
        Some("exclude") => read_exclude(&mut left).map(Command::Exclude),
        Some("restore") => read_restore(&mut left).map(Command::Restore),
        Some("selfrun") => match read_selfrun(&mut left) {
            Ok(selfrun) => Ok(Command::Selfrun(selfrun)),
            Err(fault) => Err(fault),
        },
        Some(word) => Err(UsageFault::UnknownCommand(word)),
    }
}

/// Reads the words that are left after `score`.
fn read_score<'a>(left: &mut WordsLeft<'a>) -> Result<ScoreWords<'a>, UsageFault<'a>>
    ensures score { IfOk result (λ score. IsScore (codes "score" ∷ left_words left.old) (score_values score)) }
    ensures fault { IfErr result (λ fault. HasScoreFault (codes "score" ∷ left_words left.old) fault) }
{
    let mut values = GivenValues::none(*left);
    while let Some(word) = left.next_word() {
        let Some(option) = ScoreOption::named(word) else {
            return Err(UsageFault::UnknownWord(word));
        };
        if !values.has_room(option) {
            return Err(UsageFault::GivenTwice(word));
        }
        let Some(value) = value_after(option, left) else {
            return Err(UsageFault::NeedsValue(word));
        };
        if !option.accepts(value) {
            return Err(UsageFault::BadValue(value));
        }
        values.set(option, value);
    }
    match values.complete() {
        Ok(score) => Ok(score),
        Err(option) => Err(UsageFault::Missing(option.text())),
    }
}

/// The value of an option that was read. One that takes no value has the empty one.
fn value_after<'a>(option: ScoreOption, left: &mut WordsLeft<'a>) -> Option<&'a str>
    ensures value { IfSome result (λ value. left_words left.old ≡ value_words option value.now ++ left_words left.new) }
    ensures empty { IfSome result (λ value. takes_value option ≡ false → value.now ≡ []) }
    ensures none { IfNone result (IsTrue (takes_value option) × (left_words left.old ≡ [])) }
{
    if option.takes_value() {
        left.next_word()
    } else {
        Some("")
    }
}
